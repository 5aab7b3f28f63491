//! Reading shares of templates.
//!
//! Templates rise and are below an end, so a count needs no limit of its own: past the last template nothing is read.
//! What is kept of a count is one more than there are templates, so that a hostile count costs nothing.

ghost use Rattle.std.specs.Prelude.{◌≡◌, ◌<◌, ◌≤◌, IfOk};
ghost use Rattle.std.specs.Option.{option_map};
ghost use Rattle.fx_model.specs.Limits.{template_limit};
ghost use Rattle.fx_text.specs.Reading.{Reads};
ghost use Rattle.fx_text.specs.Lines.{GivesFields};
ghost use Rattle.fx_text.specs.Many.{many};
ghost use Rattle.fx_cert.specs.CertificateView.{share_of, shares_of};
ghost use Rattle.fx_cert_text.specs.FieldReading.{size_up_to, share_at, above, few_shares_at, shares_at, is_dash, no_shares_at, some_shares_at, by_at};

use fx_cert::Share;
use fx_expr::Items;
use fx_text::{Fields, TextKind, dyadic, integer, number};
use std::alloc::Global;

/// A count, which is kept as `limit` where it is greater.
#[tactic(auto, unfolding(crate::specs::FieldReading::size_up_to))]
fn size_up_to(fields: &mut Fields<'_>, limit: u32) -> Result<u32, TextKind>
    ensures { Reads (λ n. n) result fields.new (size_up_to limit fields.old) }
{
    let field = fields.next().ok_or(TextKind::BadLine)?;
    let value = integer(field).ok_or(TextKind::BadNumber)?;
    if value > i128::from(limit) {
        return Ok(limit);
    }
    if value < 0 {
        return Err(TextKind::OutOfRange);
    }
    Ok(value as u32)
}

/// A share of a template from `least` on and below `end`.
#[tactic(auto, unfolding(crate::specs::FieldReading::share_at))]
fn share(fields: &mut Fields<'_>, end: u32, least: u32) -> Result<Share, TextKind>
    ensures value { Reads share_of result fields.new (share_at end least fields.old) }
    ensures template { IfOk result (λ s. s.template < end) }
{
    let template = number(fields, i64::from(least), i64::from(end) - 1)?;
    let times = dyadic(fields)?;
    Ok(Share {
        template: template as u32,
        times,
    })
}

/// `count` shares of templates below `end`.
fn shares_of_count(
    alloc: Global,
    fields: &mut Fields<'_>,
    end: u32,
    count: u32,
) -> Result<Vec<Share>, TextKind>
    requires { end ≤ template_limit }
    ensures { GivesFields (λ v. shares_of v.items) result fields.new (many (share_at end) above count 0 fields.old) }
{
    let mut found = Vec::new(alloc);
    let mut least = 0;
    for _ in 0..count {
        let next = share(fields, end, least)?;
        least = next.template + 1;
        found.push(next)?;
    }
    Ok(found)
}

#[tactic(auto, unfolding(crate::specs::FieldReading::few_shares_at))]
fn few_shares(alloc: Global, fields: &mut Fields<'_>, end: u32) -> Result<Items<Share>, TextKind>
    requires { end ≤ template_limit }
    ensures { GivesFields shares_of result fields.new (few_shares_at end fields.old) }
{
    let count = size_up_to(fields, end + 1)?;
    let found = shares_of_count(alloc, fields, end, count)?;
    Ok(Items::from_vec(found))
}

/// A count, and so many shares of templates below `end`, which rise.
pub fn shares(alloc: Global, fields: &mut Fields<'_>, end: u32) -> Result<Items<Share>, TextKind>
    requires { end ≤ template_limit }
    ensures { GivesFields shares_of result fields.new (shares_at end fields.old) }
{
    few_shares(alloc, fields, end)
}

fn is_minus(fields: &Fields<'_>) -> bool
    ensures { result ≡ is_dash fields.now }
{
    match fields.peek() {
        Some(field) => field == b"-".as_slice(),
        None => false,
    }
}

#[tactic(auto, unfolding(crate::specs::FieldReading::no_shares_at))]
fn no_shares(fields: &mut Fields<'_>) -> Result<Option<Items<Share>>, TextKind>
    ensures { GivesFields (option_map shares_of) result fields.new (no_shares_at fields.old) }
{
    let _minus = fields.next().ok_or(TextKind::BadLine)?;
    Ok(None)
}

#[tactic(auto, unfolding(crate::specs::FieldReading::some_shares_at))]
fn some_shares(
    alloc: Global,
    fields: &mut Fields<'_>,
    end: u32,
) -> Result<Option<Items<Share>>, TextKind>
    requires { end ≤ template_limit }
    ensures { GivesFields (option_map shares_of) result fields.new (some_shares_at end fields.old) }
{
    let found = shares(alloc, fields, end)?;
    Ok(Some(found))
}

/// A minus, or shares of templates below `end`.
#[tactic(auto, unfolding(crate::specs::FieldReading::by_at))]
pub fn shares_if_any(
    alloc: Global,
    fields: &mut Fields<'_>,
    end: u32,
) -> Result<Option<Items<Share>>, TextKind>
    requires { end ≤ template_limit }
    ensures { GivesFields (option_map shares_of) result fields.new (by_at end fields.old) }
{
    if is_minus(fields) {
        no_shares(fields)
    } else {
        some_shares(alloc, fields, end)
    }
}
