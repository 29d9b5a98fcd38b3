//! The command that words give.

ghost use Rattle.std.specs.Prelude.{◌≡◌, ◌≤◌, ◌+◌, ◌∷◌, ℕ, MatchOption, IfOk, IfErr, codes};
ghost use Rattle.ak_words.specs.Words.{word_of, frees, Continues, Means, IsUsageFault, IsSettingsFault};

use crate::settings::{Given, settings};
use ak_base::list::Word;
use ak_labor::config::Config;

/// A command.
#[derive(Clone, Copy, PartialEq, Eq, Debug)]
pub enum Command {
    /// To run a script with these settings.
    Run(Config),
    /// To run a script again over the record of a pool, with these settings.
    Replay(Config),
    /// To test a script.
    Check,
}

/// The first word of a command.
#[derive(Clone, Copy, PartialEq, Eq, Debug)]
pub enum Order {
    Run,
    Replay,
    Check,
}

impl Order {
    /// The order that a word is: `None` exactly where the word is none.
    fn named(word: &Word) -> Option<Order>
        ensures { MatchOption result ((order : Order) → word.now ≡ word_of order → ⊥)
            (λ order. word.now ≡ word_of order) }
    {
        match word.as_slice() {
            b"run" => Some(Order::Run),
            b"replay" => Some(Order::Replay),
            b"check" => Some(Order::Check),
            _ => None,
        }
    }
}

/// The command that words give: `run` or `replay` with settings, each at most once and in any order, or `check`. `replay` alone has
/// the setting of the askers. Own.
///
/// # Errors
///
/// Exactly where they are no command, the place of the first word with which they are none, from 0; where they only
/// begin one, that is their number.
pub fn read_command(words: &[Word]) -> Result<Command, u32>
    ensures command { IfOk result (Means words.now) }
    ensures usage { IfErr result (IsUsageFault words.now) }
{
    match words {
        [first, rest @ ..] => match Order::named(first) {
            Some(order) => given(order, rest),
            None => Err(0),
        },
        [] => Err(0),
    }
}

/// The command that words give behind its first word.
fn given(order: Order, rest: &[Word]) -> Result<Command, u32>
    ensures command { IfOk result (Means (word_of order ∷ rest.now)) }
    ensures usage { IfErr result (IsUsageFault (word_of order ∷ rest.now)) }
{
    match order {
        Order::Run => match behind(Given::without_askers(), rest) {
            Ok(config) => Ok(Command::Run(config)),
            Err(place) => Err(place),
        },
        Order::Replay => match behind(Given::none(), rest) {
            Ok(config) => Ok(Command::Replay(config)),
            Err(place) => Err(place),
        },
        Order::Check => check(rest),
    }
}

/// The settings that words give behind a first word, which settles these.
fn behind(settled: Given, rest: &[Word]) -> Result<Config, u32>
    requires few { frees settled ≤ 4 }
    ensures settings { IfOk result (Continues settled rest.now) }
    ensures fault { IfErr result (λ place. (within : ℕ) × (place ≡ within + 1)
        × IsSettingsFault settled rest.now within) }
{
    match settings(settled, rest) {
        Ok(config) => Ok(config),
        Err(place) => Err(place + 1),
    }
}

fn check(rest: &[Word]) -> Result<Command, u32>
    ensures command { IfOk result (Means (codes "check" ∷ rest.now)) }
    ensures usage { IfErr result (IsUsageFault (codes "check" ∷ rest.now)) }
{
    match rest {
        [] => Ok(Command::Check),
        [_, ..] => Err(1),
    }
}
