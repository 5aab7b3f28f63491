//! What `migrate FILE` prints: an accepted bundle as one of the second version.
//!
//! It is the text of the bundle with another version and all else as it was, so that it is accepted too.
ghost use Rattle.std.specs.Prelude.{◌≡◌, ◌≤◌, IfOk, length};
ghost use Rattle.fx_model.specs.Limits.{source_limit};
ghost use Rattle.fx_cert_text.specs.BundleView.{IsLawfulBundle, text_of};
ghost use Rattle.fx_bundle_commands.specs.Opening.{IsAcceptedAs};
ghost use Rattle.fx_bundle_commands.specs.OpeningView.{with_source};
ghost use Rattle.fx_bundle_commands.specs.commands.Migrate.{IsMigrated, migrated};

use crate::opening::Opened;
use fx_cert_text::print_bundle;
use fx_num::Memory;
use std::alloc::Global;

/// In the second version an accepted bundle is accepted too, runs as before, and has the bounds that it had.
pub(crate) fn migration_law(opened: &Opened)
    requires lawful { IsLawfulBundle (with_source opened.now.certified opened.now.source) }
    requires accepted { IsAcceptedAs
        (with_source opened.now.certified opened.now.source) opened.now.certified.function }
    ensures { IsMigrated (with_source opened.now.certified opened.now.source) opened.now.certified.function }
{
    let _ = opened;
}

/// The text of the bundle in the second version.
pub(crate) fn migrated_text(alloc: Global, opened: &Opened) -> Result<Vec<u8>, Memory>
    requires short { length opened.now.source ≤ source_limit }
    ensures text { IfOk result
        (λ text. text.items ≡ text_of (migrated (with_source opened.now.certified opened.now.source))) }
{
    opened.certified.certified();
    let program = opened.certified.program().second_version(alloc)?;
    let certificate = opened.certified.certificate();
    print_bundle(alloc, opened.source.as_slice(), &program, certificate)
}
