//! Reading a bundle in one pass, and its lines by their numbers in the bundle.
//!
//! The source is counted in bytes and may hold any line, those of a bundle too, so nothing looks into it but for its
//! line feeds. The trap: a line that names a section, or begins one, has a fault of its own kind where it is another or
//! has no line feed; the further fields of a source's count have the faults of any fields.

ghost use Rattle.std.specs.Prelude.{◌≡◌, ◌≤◌, ◌+◌, ◌^◌, length, IfOk};
ghost use Rattle.fx_model.specs.Limits.{source_limit};
ghost use Rattle.fx_text.specs.Reading.{ReadsAll};
ghost use Rattle.fx_text.specs.Lines.{Gives};
ghost use Rattle.fx_inequalities.specs.LawfulCertificate.{IsLawfulCertificate};
ghost use Rattle.fx_cert_text.specs.BundleView.{bundle_of, IsLawfulBundle};
ghost use Rattle.fx_cert.specs.CertificateView.{certificate_of};
ghost use Rattle.fx_cert_text.specs.BundleReading.{section_at, version_of, headline_at, source_count_at, source_line, source_at, source_lines, counted_source_at, program_lines, proof_lines, program_section_at, certificate_section_at, bundle_body_at, bundle_at, bundle_in};

use crate::bundle::Bundle;
use crate::read::{certificate_at, certificate_lines};
use fx_cert::Certificate;
use fx_expr::Items;
use fx_num::SOURCE_LIMIT;
use fx_program::{Program, program_at};
use fx_text::{Fields, TextFault, TextKind, count, ended, line_at, text_ended, word};
use std::alloc::{AllocError, Global};

/// The text behind this very line. Section where line `line` is another or has no line feed.
#[tactic(auto, unfolding(crate::specs::BundleReading::section_at))]
fn section_at<'a>(word: &[u8], line: u32, text: &'a [u8]) -> Result<&'a [u8], TextFault>
    ensures { ReadsAll (λ rest. rest.now) result (section_at word.now line text.now) }
{
    let (bytes, rest) = line_at(text).ok_or(TextFault::at(line, TextKind::Section))?;
    if bytes != word {
        return Err(TextFault::at(line, TextKind::Section));
    }
    Ok(rest)
}

/// The version that a bundle's first line names. Section where it is another line.
#[tactic(auto, unfolding(crate::specs::BundleReading::version_of))]
fn version_of(line: &[u8]) -> Result<u32, TextFault>
    ensures { ReadsAll (λ v. v) result (version_of line.now) }
{
    if line == b"fixd bundle 1".as_slice() {
        return Ok(1);
    }
    if line == b"fixd bundle 2".as_slice() {
        return Ok(2);
    }
    Err(TextFault::at(1, TextKind::Section))
}

/// The version of a bundle, and the text behind its first line.
#[tactic(auto, unfolding(crate::specs::BundleReading::headline_at))]
fn headline_at(text: &[u8]) -> Result<(u32, &[u8]), TextFault>
    ensures { ReadsAll (λ x. (x.0, x.1.now)) result (headline_at text.now) }
{
    let (bytes, rest) = line_at(text).ok_or(TextFault::at(1, TextKind::Section))?;
    let version = version_of(bytes)?;
    Ok((version, rest))
}

/// `source COUNT`.
#[tactic(auto, unfolding(crate::specs::BundleReading::source_count_at))]
fn read_source_count(fields: &mut Fields<'_>) -> Result<u32, TextKind>
    ensures value { ReadsAll (λ n. n) result (source_count_at fields.old) }
    ensures range { IfOk result (λ n. n ≤ source_limit) }
{
    word(fields, b"source").map_err(|_| TextKind::Section)?;
    let count = count(fields, 0, SOURCE_LIMIT)?;
    ended(fields)?;
    Ok(count)
}

/// The count of a source's bytes, on line `line`, and the text behind it.
#[tactic(auto, unfolding(crate::specs::BundleReading::source_line))]
fn source_line(line: u32, text: &[u8]) -> Result<(u32, &[u8]), TextFault>
    ensures value { ReadsAll (λ x. (x.0, x.1.now)) result (source_line line text.now) }
    ensures range { IfOk result (λ x. x.0 ≤ source_limit) }
{
    let (bytes, rest) = line_at(text).ok_or(TextFault::at(line, TextKind::Section))?;
    let mut fields = Fields::of(bytes);
    let count = read_source_count(&mut fields).map_err(|kind| TextFault::at(line, kind))?;
    Ok((count, rest))
}

/// The first `count` bytes, and the text behind the line feed that follows.
#[tactic(auto, unfolding(crate::specs::BundleReading::source_at))]
fn source_at(line: u32, count: u32, text: &[u8]) -> Result<(&[u8], &[u8]), TextFault>
    ensures value { ReadsAll (λ x. (x.0.now, x.1.now)) result (source_at line count text.now) }
    ensures count { IfOk result (λ x. length x.0.now ≡ count) }
{
    let n = count as usize;
    if n < text.len() && text[n] == b'\n' {
        Ok((&text[..n], &text[n + 1..]))
    } else {
        Err(TextFault::at(line, TextKind::Section))
    }
}

/// How many lines the source takes, with the line feed behind it.
fn source_lines(source: &[u8]) -> u32
    requires { length source.now ≤ source_limit }
    ensures lines { result ≡ source_lines source.now }
    ensures few { result ≤ source_limit + 1 }
{
    let mut lines = 0;
    for byte in source {
        if *byte == b'\n' {
            lines += 1;
        }
    }
    lines + 1
}

/// The source whose count stands on line `line`, and the text behind it.
#[tactic(auto, unfolding(crate::specs::BundleReading::counted_source_at))]
fn counted_source_at(line: u32, text: &[u8]) -> Result<(&[u8], &[u8]), TextFault>
    ensures value { ReadsAll (λ x. (x.0.now, x.1.now)) result (counted_source_at line text.now) }
    ensures few { IfOk result (λ x. length x.0.now ≤ source_limit) }
{
    let (count, rest) = source_line(line, text)?;
    source_at(line, count, rest)
}

fn copied(alloc: Global, source: &[u8]) -> Result<Items<u8>, AllocError>
    ensures { IfOk result (λ items. items ≡ source.now) }
{
    let mut bytes = Vec::new(alloc);
    bytes.extend_from_slice(source)?;
    Ok(Items::from_vec(bytes))
}

/// How many lines the program takes, with the one that names its section.
fn program_lines(program: &Program) -> u32
    ensures lines { result ≡ program_lines program.now }
    ensures few { result ≤ 2 ^ 13 }
{
    5 + program.codes.len() as u32
}

/// The section of a program of that version from line `line` on, and the text behind it.
#[tactic(auto, unfolding(crate::specs::BundleReading::program_section_at))]
fn program_section<'a>(
    alloc: Global,
    version: u32,
    line: u32,
    text: &'a [u8],
) -> Result<(Program, &'a [u8]), TextFault>
    requires { line ≤ 2 ^ 28 }
    ensures { Gives (λ x. (x.0, x.1.now)) result (program_section_at version line text.now) }
{
    let rest = section_at(b"program", line, text)?;
    program_at(alloc, Some(version), line + 1, rest)
}

/// The section of a certificate from line `line` on, and the text behind it.
#[tactic(auto, unfolding(crate::specs::BundleReading::certificate_section_at))]
fn certificate_section<'a>(
    alloc: Global,
    line: u32,
    text: &'a [u8],
) -> Result<(Certificate, &'a [u8]), TextFault>
    requires { line ≤ 2 ^ 28 }
    ensures value { Gives (λ x. (certificate_of x.0, x.1.now)) result (certificate_section_at line text.now) }
    ensures lawful { IfOk result (λ x. IsLawfulCertificate (certificate_of x.0)) }
{
    let rest = section_at(b"certificate", line, text)?;
    certificate_at(alloc, line + 1, rest)
}

/// Both sections from line `line` on, the number of the line behind the bundle's last, and the text behind it.
#[tactic(auto, unfolding(crate::specs::BundleReading::bundle_body_at))]
fn body_at<'a>(
    alloc: Global,
    version: u32,
    line: u32,
    text: &'a [u8],
) -> Result<(Program, Certificate, u32, &'a [u8]), TextFault>
    requires { line ≤ 2 ^ 24 }
    ensures value { Gives (λ x. ((x.0, certificate_of x.1), x.3.now)) result (bundle_body_at version line text.now) }
    ensures line { IfOk result (λ x. x.2 ≡ 1 + (line + program_lines x.0 + proof_lines (certificate_of x.1))) }
{
    let (program, rest) = program_section(alloc, version, line, text)?;
    let line = line + program_lines(&program);
    let (certificate, rest) = certificate_section(alloc, line, rest)?;
    let line = line + (1 + certificate_lines(&certificate));
    let rest = section_at(b"end", line, rest)?;
    Ok((program, certificate, 1 + line, rest))
}

/// The bundle that the text spells, and then Extra where text is left.
#[tactic(auto, unfolding(crate::specs::BundleReading::bundle_at, crate::specs::BundleReading::bundle_in))]
fn parts_in(alloc: Global, bytes: &[u8]) -> Result<Bundle, TextFault>
    ensures { Gives bundle_of result (bundle_in bytes.now) }
{
    let (version, rest) = headline_at(bytes)?;
    let (source, rest) = counted_source_at(2, rest)?;
    let (program, certificate, line, rest) = body_at(
        alloc,
        version,
        3 + source_lines(source),
        rest,
    )?;
    text_ended(line, rest)?;
    Ok(Bundle {
        source: copied(alloc, source)?,
        program,
        certificate,
    })
}

/// The bundle that the text spells, or the first fault.
pub fn read_bundle(alloc: Global, bytes: &[u8]) -> Result<Bundle, TextFault>
    ensures value { Gives bundle_of result (bundle_in bytes.now) }
    ensures lawful { IfOk result (λ b. IsLawfulBundle (bundle_of b)) }
{
    let bundle = parts_in(alloc, bytes)?;
    Ok(bundle)
}
