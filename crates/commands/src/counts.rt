// Whether a command has as many words as it takes (13), and whether one of them is too long (14).
ghost use Rattle.std.specs.Prelude.{◌≡◌, List, ℕ};
ghost use Rattle.commands.specs.Options.{Given};
ghost use Rattle.commands.specs.Parse.{count_fits, build, too_long};
ghost use Rattle.commands.specs.TablePromises.{count_meant, form_meant};
ghost use Rattle.commands.specs.ParsePromises.{any_over, pair_over};

use crate::table::{CommandRow, Form, WordCount};
use store::layout::{FIELD_MOST, KEY_MOST, VALUE_MOST};
use wire::words::Words;

// Whether a command of a row takes so many words, its name counted.
#[tactic(auto, unfolding(crate::specs::Parse::count_fits, crate::specs::TablePromises::count_meant))]
pub fn count_fits(row: CommandRow, count: usize) -> bool
    ensures { result ≡ count_fits (count_meant row.count) count }
{
    match row.count {
        WordCount::Exactly(least) => count == least,
        WordCount::AtLeast(least) => least <= count,
        WordCount::EvenFrom(least) => least <= count && count % 2 == 0,
    }
}

// Whether a word from word 2 on is longer than a field may be.
fn any_over(words: &Words<'_>) -> bool
    ensures { result ≡ any_over words.now }
{
    for i in 2..words.len() {
        if FIELD_MOST < words.word(i).len() {
            return true;
        }
    }
    false
}

// Whether a pair from word 2 on has a field or a value that is too long.
fn pair_over(words: &Words<'_>) -> bool
    ensures { result ≡ pair_over words.now }
{
    for i in 1..words.len() / 2 {
        if FIELD_MOST < words.word(2 * i).len() {
            return true;
        }
        if VALUE_MOST < words.word(2 * i + 1).len() {
            return true;
        }
    }
    false
}

// Whether the key, a field or a value of a command of a row is too long.
#[tactic(auto, using(crate::proofs::CountTallies::key_lengths), unfolding(crate::proofs::CountTallies::long_after, crate::specs::TablePromises::form_meant))]
pub fn too_long(words: &Words<'_>, row: CommandRow) -> bool
    ensures { (time : ℕ) (gs : List Given) → result ≡ too_long (build time (form_meant row.form) words.now gs) }
{
    if KEY_MOST < words.word(1).len() {
        return true;
    }
    match row.form {
        Form::Set => { FIELD_MOST < words.word(2).len() || VALUE_MOST < words.word(3).len() },
        Form::SetMany => pair_over(words),
        Form::GetMany(_) | Form::Delete => any_over(words),
        Form::Count | Form::List(_) => false,
        Form::Increment | Form::Expire(_) | Form::Persist | Form::Renumber | Form::Ask(_) => {
            FIELD_MOST < words.word(2).len()
        },
    }
}
