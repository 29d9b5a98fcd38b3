//! The settings of a run, by their words.

ghost use Rattle.std.specs.Prelude.{◌≡◌, ◌≤◌, ◌+◌, ◌*◌, ℕ, ◌↔◌, IsTrue, Some, None, MatchOption, IfOk, IfErr};
ghost use Rattle.ak_labor.specs.declared.config.Config.{Config};
ghost use Rattle.ak_text.specs.Numbers.{has_minus};
ghost use Rattle.ak_words.specs.Words.{name_of, least, greatest, given_at, with_setting, none_given, config_of, IsValue, frees, Continues, IsSettingsFault};

use ak_base::list::Word;
use ak_labor::config::Config;
use ak_text::read::read_u64;

/// A setting of a run.
#[derive(Clone, Copy, PartialEq, Eq, Debug)]
pub enum Setting {
    /// How many threads the pool has: 1 to 32, else 4.
    Threads,
    /// How many jobs of a priority run in a cycle at the most: 1 to 100,000, else 500.
    Limit,
    /// How many jobs run in all at the most: 1 to 200,000, else 100,000.
    Jobs,
    /// How many askers there are outside: 0 to 16, else 0.
    Askers,
}

impl Setting {
    /// The setting of a word: `None` exactly where the word is of none.
    fn named(word: &Word) -> Option<Setting>
        ensures { MatchOption result ((setting : Setting) → word.now ≡ name_of setting → ⊥)
            (λ setting. word.now ≡ name_of setting) }
    {
        match word.as_slice() {
            b"--threads" => Some(Setting::Threads),
            b"--limit" => Some(Setting::Limit),
            b"--jobs" => Some(Setting::Jobs),
            b"--askers" => Some(Setting::Askers),
            _ => None,
        }
    }

    /// The least number that it may have.
    fn least(self) -> u32
        ensures { result ≡ least self }
    {
        match self {
            Setting::Threads | Setting::Limit | Setting::Jobs => 1,
            Setting::Askers => 0,
        }
    }

    /// The greatest number that it may have.
    fn greatest(self) -> u32
        ensures { result ≡ greatest self }
    {
        match self {
            Setting::Threads => 32,
            Setting::Limit => 100_000,
            Setting::Jobs => 200_000,
            Setting::Askers => 16,
        }
    }

    /// The number of the setting that a word is: `None` exactly where it is none.
    fn number(self, word: &Word) -> Option<u32>
        ensures { MatchOption result ((n : ℕ) → IsValue self word.now n → ⊥)
            (λ n. IsValue self word.now n) }
    {
        if begins_with_minus(word) {
            return None;
        }
        let number = read_u64(word.as_slice())?;
        let number = u32::try_from(number).ok()?;
        if number < self.least() || number > self.greatest() {
            return None;
        }
        Some(number)
    }
}

fn begins_with_minus(word: &Word) -> bool
    ensures { result ≡ has_minus word.now }
{
    matches!(word.as_slice(), [b'-', ..])
}

/// The settings that words have given so far.
#[derive(Clone, Copy, PartialEq, Eq, Debug)]
pub struct Given {
    threads: Option<u32>,
    limit: Option<u32>,
    jobs: Option<u32>,
    askers: Option<u32>,
}

impl Given {
    /// None was given.
    pub fn none() -> Given
        ensures { result ≡ none_given }
    {
        Given {
            threads: None,
            limit: None,
            jobs: None,
            askers: None,
        }
    }

    /// None was given, but it is settled that there are no askers.
    pub fn without_askers() -> Given
        ensures { result ≡ record none_given { askers = Some 0 } }
    {
        Given {
            askers: Some(0),
            ..Given::none()
        }
    }

    fn is_free(&self, setting: Setting) -> bool
        ensures { IsTrue result ↔ (given_at setting self.now ≡ None) }
    {
        match setting {
            Setting::Threads => self.threads.is_none(),
            Setting::Limit => self.limit.is_none(),
            Setting::Jobs => self.jobs.is_none(),
            Setting::Askers => self.askers.is_none(),
        }
    }

    fn with(self, setting: Setting, number: u32) -> Given
        ensures { result ≡ with_setting setting number self }
    {
        match setting {
            Setting::Threads => Given {
                threads: Some(number),
                ..self
            },
            Setting::Limit => Given {
                limit: Some(number),
                ..self
            },
            Setting::Jobs => Given {
                jobs: Some(number),
                ..self
            },
            Setting::Askers => Given {
                askers: Some(number),
                ..self
            },
        }
    }

    fn config(self) -> Config
        ensures { result ≡ config_of self }
    {
        Config {
            threads: or_default(self.threads, 4),
            limit: or_default(self.limit, 500),
            jobs: or_default(self.jobs, 100_000),
            askers: or_default(self.askers, 0),
        }
    }
}

fn or_default(number: Option<u32>, default: u32) -> u32
    ensures { result ≡ Rattle.ak_words.specs.Words.or_default number default }
{
    match number {
        Some(number) => number,
        None => default,
    }
}

/// The settings that words give behind those that were given, or the place of the first word with which they give
/// none; where they only begin some, that is their number.
pub fn settings(given: Given, words: &[Word]) -> Result<Config, u32>
    ensures near { IfErr result (λ place. place ≤ 2 * frees given + 1) }
    ensures settings { IfOk result (Continues given words.now) }
    ensures fault { IfErr result (IsSettingsFault given words.now) }
{
    match words {
        [] => Ok(given.config()),
        [name] => match free_setting(&given, name) {
            Some(_) => Err(1),
            None => Err(0),
        },
        [name, value, rest @ ..] => {
            let Some(setting) = free_setting(&given, name) else {
                return Err(0);
            };
            let Some(number) = setting.number(value) else {
                return Err(1);
            };
            match settings(given.with(setting, number), rest) {
                Ok(config) => Ok(config),
                Err(place) => Err(place + 2),
            }
        }
    }
}

/// The setting of a word, where it was not given yet.
fn free_setting(given: &Given, name: &Word) -> Option<Setting>
    ensures { MatchOption result ((setting : Setting) → name.now ≡ name_of setting
        → given_at setting given.now ≡ None → ⊥) (λ setting. (name.now ≡ name_of setting)
        × (given_at setting given.now ≡ None)) }
{
    let setting = Setting::named(name)?;
    if given.is_free(setting) {
        Some(setting)
    } else {
        None
    }
}
