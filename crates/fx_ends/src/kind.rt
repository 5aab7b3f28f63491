//! How faults are called on the notes.
ghost use Rattle.std.specs.Prelude.{◌≡◌};
ghost use Rattle.fx_formulas.specs.FaultView.{kind_of};
ghost use Rattle.fx_ends.specs.KindTexts.{condition_text, source_text, bundle_kind_text, row_text, unit_text};

use fx_formulas::ConditionKind;
use fx_lexer::SourceKind;
use fx_rows::{RowKind, UnitKind};
use fx_text::TextKind;

/// What a condition asks.
pub fn condition_text(kind: ConditionKind) -> &'static str
    ensures { result.now ≡ condition_text (kind_of kind) }
{
    match kind {
        ConditionKind::Counts => "Counts",
        ConditionKind::Step => "Step",
        ConditionKind::Shape => "Shape",
        ConditionKind::Shift => "Shift",
        ConditionKind::Range => "Range",
        ConditionKind::Divisor => "Divisor",
        ConditionKind::Error => "Error",
        ConditionKind::WordTooSmall => "WordTooSmall",
        ConditionKind::Form => "Form",
        ConditionKind::Start => "Start",
        ConditionKind::Row => "Row",
        ConditionKind::ErrorRow => "ErrorRow",
        ConditionKind::Demand => "Demand",
        ConditionKind::Beyond => "Beyond",
    }
}

/// What is wrong with a source.
pub fn source_text(kind: SourceKind) -> &'static str
    ensures { result.now ≡ source_text kind }
{
    match kind {
        SourceKind::BadUtf8 => "BadUtf8",
        SourceKind::BadCharacter => "BadCharacter",
        SourceKind::BadNumber => "BadNumber",
        SourceKind::NumberTooLong => "NumberTooLong",
        SourceKind::Unexpected => "Unexpected",
        SourceKind::EndOfText => "EndOfText",
        SourceKind::UnknownName => "UnknownName",
        SourceKind::NamedTwice => "NamedTwice",
        SourceKind::NoRange => "NoRange",
        SourceKind::EmptyRange => "EmptyRange",
        SourceKind::TooDeep => "TooDeep",
        SourceKind::TooMany => "TooMany",
        SourceKind::NoSuchFunction => "NoSuchFunction",
        SourceKind::WhichFunction => "WhichFunction",
        SourceKind::Unsupported => "Unsupported",
        SourceKind::WrongArity => "WrongArity",
        SourceKind::Memory => "Memory",
    }
}

/// What is wrong with a bundle's text.
pub fn bundle_text(kind: TextKind) -> &'static str
    ensures { result.now ≡ bundle_kind_text kind }
{
    match kind {
        TextKind::BadLine => "BadLine",
        TextKind::BadNumber => "BadNumber",
        TextKind::OutOfRange => "OutOfRange",
        TextKind::Extra => "Extra",
        TextKind::TooMany => "TooMany",
        TextKind::Memory => "Memory",
        TextKind::Section => "Section",
    }
}

/// What is wrong with a line of rows.
pub fn row_text(kind: RowKind) -> &'static str
    ensures { result.now ≡ row_text kind }
{
    match kind {
        RowKind::MissingColumn => "MissingColumn",
        RowKind::TwiceNamed => "TwiceNamed",
        RowKind::TooFew => "TooFew",
        RowKind::BadNumber => "BadNumber",
        RowKind::OutOfRange => "OutOfRange",
        RowKind::LineTooLong => "LineTooLong",
        RowKind::StrayReturn => "StrayReturn",
        RowKind::Memory => "Memory",
    }
}

/// What is wrong with the unit of a line.
pub fn unit_text(kind: UnitKind) -> &'static str
    ensures { result.now ≡ unit_text kind }
{
    match kind {
        UnitKind::NoUnitColumn => "NoUnitColumn",
        UnitKind::UnitTwice => "UnitTwice",
        UnitKind::BadUnit => "BadUnit",
    }
}
