//! What `require` and `ensuring` speak of: inputs and outputs by their names, with what is said of each so far.
//!
//! There are at most 64, so that a name is found by going over them.
ghost use Rattle.std.specs.Prelude.{◌≡◌, ◌<◌, ◌+◌, length, map, IfSome, IfOk, None, Ok, ◌++◌, ◌∷◌, []};
ghost use Rattle.fx_lexer.specs.Faults.{GivesParsed};
ghost use Rattle.fx_lexer.specs.Tokens.{lexeme_of};
ghost use Rattle.fx_cursor.specs.Texts.{numeral_decimal};
ghost use Rattle.fx_requirements.specs.Views.{subject_of, subjects_of, IsNamed};
ghost use Rattle.fx_grammar.specs.Steps.{name_place};
ghost use Rattle.fx_grammar.specs.Ranges.{names_of, new_subject, aspect_of, with_aspect, is_said, said, subject_at};

use fx_cursor::{Names, Numeral, no_names, with_name};
use fx_grammar::Aspect;
use fx_lexer::{SourceFault, SourceKind, Token};
use std::alloc::Global;

/// An input or an output, and what is said of it so far.
#[derive(Clone, Copy, Debug)]
pub struct Subject<'a> {
    /// Its name.
    pub name: &'a str,
    /// Where its name stands first.
    pub at: u32,
    /// Its lower end.
    pub lo: Option<Numeral<'a>>,
    /// Its upper end.
    pub hi: Option<Numeral<'a>>,
    /// Its error.
    pub err: Option<Numeral<'a>>,
}

/// Inputs or outputs as they are read, with the set of their names.
#[derive(Drop)]
pub struct Named<'a> {
    /// The set of their names.
    pub names: Names<'a>,
    /// The inputs or outputs, in order.
    pub subjects: Vec<Subject<'a>>,
}

fn new_subject<'a>(token: &Token<'a>) -> Subject<'a>
    ensures { subject_of result ≡ new_subject (lexeme_of token.now) }
{
    Subject {
        name: token.text,
        at: token.at,
        lo: None,
        hi: None,
        err: None,
    }
}

/// No inputs or outputs yet.
pub fn no_subjects<'a>(alloc: Global) -> Named<'a>
    ensures value { subjects_of result.subjects ≡ [] }
    ensures same { IsNamed result }
    ensures none { length result.subjects.items ≡ 0 }
{
    Named {
        names: no_names(alloc),
        subjects: Vec::new(alloc),
    }
}

/// One more, whose name is new.
pub fn with_subject<'a>(named: Named<'a>, token: &Token<'a>) -> Result<Named<'a>, SourceFault>
    requires same { IsNamed named }
    requires new { name_place named.names token.now.text.now ≡ None }
    ensures value { GivesParsed (λ more. subjects_of more.subjects) result
        (Ok (subjects_of named.entry.subjects ++ new_subject (lexeme_of token.now) ∷ [])) }
    ensures same { IfOk result (λ more. IsNamed more) }
    ensures count { IfOk result (λ more. length more.subjects.items ≡ length named.entry.subjects.items + 1) }
{
    let Named {
        names,
        mut subjects,
    } = named;
    let names = with_name(names, token.text)?;
    subjects.push(new_subject(token))?;
    Ok(Named { names, subjects })
}

/// The place of a name.
pub fn subject_place(subjects: &[Subject<'_>], text: &str) -> Option<usize>
    ensures value { result ≡ name_place (names_of (map subject_of subjects.now)) text.now }
    ensures within { IfSome result (λ k. k < length subjects.now) }
{
    for (i, subject) in subjects.iter().enumerate() {
        if subject.name == text {
            return Some(i);
        }
    }
    None
}

/// The place of a name that must be known.
#[tactic(auto, unfolding(fx_grammar::specs::Ranges::subject_at))]
pub fn subject_at(subjects: &[Subject<'_>], token: &Token<'_>) -> Result<usize, SourceFault>
    ensures value { GivesParsed (λ k. k) result (subject_at (map subject_of subjects.now) (lexeme_of token.now)) }
    ensures within { IfOk result (λ k. k < length subjects.now) }
{
    subject_place(subjects, token.text).ok_or(SourceFault::at(token.at, SourceKind::UnknownName))
}

fn is_said(aspect: Aspect, subject: &Subject<'_>) -> bool
    ensures { result ≡ is_said (aspect_of aspect (subject_of subject.now)) }
{
    match aspect {
        Aspect::Low => subject.lo.is_some(),
        Aspect::High => subject.hi.is_some(),
        Aspect::Error => subject.err.is_some(),
    }
}

fn with_aspect<'a>(aspect: Aspect, value: Numeral<'a>, subject: &Subject<'a>) -> Subject<'a>
    ensures { subject_of result ≡ with_aspect aspect (numeral_decimal value.entry) (subject_of subject.now) }
{
    let Subject {
        name,
        at,
        lo,
        hi,
        err,
    } = *subject;
    match aspect {
        Aspect::Low => Subject {
            name,
            at,
            lo: Some(value),
            hi,
            err,
        },
        Aspect::High => Subject {
            name,
            at,
            lo,
            hi: Some(value),
            err,
        },
        Aspect::Error => Subject {
            name,
            at,
            lo,
            hi,
            err: Some(value),
        },
    }
}

/// The subject at a place learns one thing.
pub fn said<'a>(
    aspect: Aspect,
    value: Numeral<'a>,
    token: &Token<'a>,
    mut subjects: Vec<Subject<'a>>,
    k: usize,
) -> Result<Vec<Subject<'a>>, SourceFault>
    requires { k < length subjects.items }
    ensures { GivesParsed (λ v. subjects_of v) result
        (said aspect (numeral_decimal value.entry) (lexeme_of token.now) (subjects_of subjects.entry) k) }
{
    let subject = subjects[k];
    if is_said(aspect, &subject) {
        return Err(SourceFault::at(token.at, SourceKind::NamedTwice));
    }
    subjects[k] = with_aspect(aspect, value, &subject);
    Ok(subjects)
}
