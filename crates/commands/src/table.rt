// The commands and their options: for each its name, a row of a table, and what parsing asks of it.
ghost use Rattle.std.specs.Prelude.{◌≡◌, ◌<◌, option_map, is_some};
ghost use Rattle.wire.specs.Promises.{row_named};
ghost use Rattle.commands.specs.Options.{option_count, group, operand_range};
ghost use Rattle.commands.specs.Parse.{command_count, command_named, commands};
ghost use Rattle.commands.specs.TablePromises.{command_of, row_parts, row_meant, option_table, option_of, kind_meant, group_number};

use self::WordCount::{AtLeast, EvenFrom, Exactly};
use crate::{Condition, Listing, Question};
use wire::names::{ROW_SIZE, find};

// The unit of a time, that of EX, EXAT, PX and PXAT; from now, or else since 1970.
#[derive(Clone, Copy)]
pub enum TimeUnit {
    SecondsFromNow,
    Seconds,
    MillisecondsFromNow,
    Milliseconds,
}

// What a command does and how its words are read; commands of one form differ in a unit, a question or a listing.
#[derive(Clone, Copy)]
pub enum Form {
    Set,
    SetMany,
    Increment,
    Expire(TimeUnit),
    Persist,
    Renumber,
    Ask(Question),
    GetMany(Question),
    Delete,
    Count,
    List(Listing),
}

// How many words a command has, its name counted.
#[derive(Clone, Copy)]
pub enum WordCount {
    Exactly(usize),
    AtLeast(usize),
    EvenFrom(usize),
}

// What the table says of a command.
#[derive(Clone, Copy)]
pub struct CommandRow {
    pub form: Form,
    pub count: WordCount,
}

// The commands. Small letters fill a row: a run of equal bytes would be stored by itself wherever the table is lent.
const COMMAND_COUNT: usize = 23;

const COMMANDS: [u8; ROW_SIZE * COMMAND_COUNT] = *b"\x06EXHSETghijklmno\
    \x07EXHMSEThijklmno\
    \x09EXHINCRBYjklmno\
    \x09EXHEXPIREjklmno\
    \x0bEXHEXPIREATlmno\
    \x0aEXHPEXPIREklmno\
    \x0cEXHPEXPIREATmno\
    \x0aEXHPERSISTklmno\
    \x09EXHSETVERjklmno\
    \x07EXHPTTLhijklmno\
    \x06EXHTTLghijklmno\
    \x06EXHVERghijklmno\
    \x06EXHGETghijklmno\
    \x09EXHSTRLENjklmno\
    \x09EXHEXISTSjklmno\
    \x0dEXHGETWITHVERno\
    \x07EXHMGEThijklmno\
    \x0eEXHMGETWITHVERo\
    \x06EXHDELghijklmno\
    \x06EXHLENghijklmno\
    \x07EXHKEYShijklmno\
    \x07EXHVALShijklmno\
    \x09EXHGETALLjklmno";

// VER, ABS or GT.
#[derive(Clone, Copy)]
pub enum VersionOption {
    Match,
    Exactly,
    Above,
}

// What an option says.
#[derive(Clone, Copy)]
pub enum OptionKind {
    Expires(TimeUnit),
    KeepTtl,
    Only(Condition),
    Versioned(VersionOption),
    Min,
    Max,
    NoExp,
}

// The groups of options: at most one of each is given.
#[derive(Clone, Copy, PartialEq, Eq)]
pub enum OptionGroup {
    Expiry,
    Condition,
    Version,
    Min,
    Max,
    NoExp,
}

// The options.
const OPTION_COUNT: usize = 13;

const OPTIONS: [u8; ROW_SIZE * OPTION_COUNT] = *b"\x02EXcdefghijklmno\
    \x04EXATefghijklmno\
    \x02PXcdefghijklmno\
    \x04PXATefghijklmno\
    \x07KEEPTTLhijklmno\
    \x02NXcdefghijklmno\
    \x02XXcdefghijklmno\
    \x03VERdefghijklmno\
    \x03ABSdefghijklmno\
    \x02GTcdefghijklmno\
    \x03MINdefghijklmno\
    \x03MAXdefghijklmno\
    \x05NOEXPfghijklmno";

// A row of a form and a count of words.
fn row(form: Form, count: WordCount) -> CommandRow
    ensures { result ≡ record { form = form; count = count } }
{
    CommandRow { form, count }
}

// The row of a command by its place among the names.
#[tactic(auto, unfolding(crate::proofs::TableRows::tables))]
fn command_row(i: usize) -> CommandRow
    requires { i < command_count }
    ensures { row_meant result ≡ row_parts (command_of i) }
{
    match i {
        0 => row(Form::Set, AtLeast(4)),
        1 => row(Form::SetMany, EvenFrom(4)),
        2 => row(Form::Increment, AtLeast(4)),
        3 => row(Form::Expire(TimeUnit::SecondsFromNow), AtLeast(4)),
        4 => row(Form::Expire(TimeUnit::Seconds), AtLeast(4)),
        5 => row(Form::Expire(TimeUnit::MillisecondsFromNow), AtLeast(4)),
        6 => row(Form::Expire(TimeUnit::Milliseconds), AtLeast(4)),
        7 => row(Form::Persist, Exactly(3)),
        8 => row(Form::Renumber, Exactly(4)),
        9 => row(Form::Ask(Question::Milliseconds), Exactly(3)),
        10 => row(Form::Ask(Question::Seconds), Exactly(3)),
        11 => row(Form::Ask(Question::Version), Exactly(3)),
        12 => row(Form::Ask(Question::Value), Exactly(3)),
        13 => row(Form::Ask(Question::Length), Exactly(3)),
        14 => row(Form::Ask(Question::Exists), Exactly(3)),
        15 => row(Form::Ask(Question::Versioned), Exactly(3)),
        16 => row(Form::GetMany(Question::Value), AtLeast(3)),
        17 => row(Form::GetMany(Question::Versioned), AtLeast(3)),
        18 => row(Form::Delete, AtLeast(3)),
        19 => row(Form::Count, AtLeast(2)),
        20 => row(Form::List(Listing::Fields), Exactly(2)),
        21 => row(Form::List(Listing::Values), Exactly(2)),
        _ => row(Form::List(Listing::Both), Exactly(2)),
    }
}

// The row of the command that a word names.
pub fn command_named(word: &[u8]) -> Option<CommandRow>
    ensures { option_map row_meant result ≡ option_map row_parts (command_named commands word.now) }
{
    let i = find(&COMMANDS, word)?;
    Some(command_row(i))
}

// The option of a row by its place among the names.
#[tactic(auto, unfolding(crate::proofs::TableRows::tables))]
fn option_kind(i: usize) -> OptionKind
    requires { i < option_count }
    ensures { kind_meant result ≡ (option_of i).kind }
{
    match i {
        0 => OptionKind::Expires(TimeUnit::SecondsFromNow),
        1 => OptionKind::Expires(TimeUnit::Seconds),
        2 => OptionKind::Expires(TimeUnit::MillisecondsFromNow),
        3 => OptionKind::Expires(TimeUnit::Milliseconds),
        4 => OptionKind::KeepTtl,
        5 => OptionKind::Only(Condition::Missing),
        6 => OptionKind::Only(Condition::Live),
        7 => OptionKind::Versioned(VersionOption::Match),
        8 => OptionKind::Versioned(VersionOption::Exactly),
        9 => OptionKind::Versioned(VersionOption::Above),
        10 => OptionKind::Min,
        11 => OptionKind::Max,
        _ => OptionKind::NoExp,
    }
}

// The option that a word names.
pub fn option_named(word: &[u8]) -> Option<OptionKind>
    ensures { option_map kind_meant result ≡ option_map (λ i. (option_of i).kind) (row_named option_table word.now) }
{
    let i = find(&OPTIONS, word)?;
    Some(option_kind(i))
}

// The group of an option.
#[tactic(auto, unfolding(crate::specs::TablePromises::kind_meant, crate::specs::TablePromises::group_number, crate::specs::Options::group))]
pub fn group(kind: OptionKind) -> OptionGroup
    ensures { group_number result ≡ group (kind_meant kind) }
{
    match kind {
        OptionKind::Expires(_) | OptionKind::KeepTtl => OptionGroup::Expiry,
        OptionKind::Only(_) => OptionGroup::Condition,
        OptionKind::Versioned(_) => OptionGroup::Version,
        OptionKind::Min => OptionGroup::Min,
        OptionKind::Max => OptionGroup::Max,
        OptionKind::NoExp => OptionGroup::NoExp,
    }
}

// Whether the word after an option is its operand.
#[tactic(auto, unfolding(crate::specs::TablePromises::kind_meant, crate::specs::Options::operand_range))]
pub fn takes_operand(kind: OptionKind) -> bool
    ensures { result ≡ is_some (operand_range (kind_meant kind)) }
{
    match kind {
        OptionKind::Expires(_) | OptionKind::Versioned(_) => true,
        OptionKind::Min | OptionKind::Max => true,
        OptionKind::KeepTtl | OptionKind::Only(_) | OptionKind::NoExp => false,
    }
}
