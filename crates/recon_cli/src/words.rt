//! The words of the command line.

ghost use Rattle.std.specs.Prelude.{ℕ, ◌≡◌, ◌^◌, ◌<◌, map, string_bytes, MatchOption};
ghost use Rattle.recon_cli.specs.Words.{AreSeedAndCommits, IsForm, IsNoForm, Spells};

use crate::lines::Style;

/// What the words ask for.
#[derive(Clone, Copy, Debug, PartialEq, Eq)]
pub enum Form {
    /// `check IMAGE`: the full check of the image.
    Check,
    /// `replay IMAGE` or `replay --json IMAGE`: a trace is replayed over the image.
    Replay(Style),
    /// `make SEED COMMITS IMAGE`: the base image is written to the device, and a trace over it goes out.
    Make {
        /// The number that the workload is drawn from.
        seed: u64,
        /// How many commits the trace has, from 1 to 200.
        commits: u32,
    },
}

// The number that a word of digits spells, where it has 64 bits.
fn number_of(word: &str) -> Option<u64>
    ensures { MatchOption result ((n : ℕ) → n < 2 ^ 64 → ¬ Spells word.now n)
        (λ n. Spells word.now n) }
{
    // A number is read with a plus before it too.
    if word.starts_with('+') {
        return None;
    }
    word.parse::<u64>().ok()
}

// The seed and the commits that these words spell.
fn seed_and_commits(first: &str, second: &str) -> Option<(u64, u32)>
    ensures { MatchOption result
        ((seed commits : ℕ) → ¬ AreSeedAndCommits first.now second.now seed commits)
        (λ asked. AreSeedAndCommits first.now second.now asked.0 asked.1) }
{
    let seed = number_of(first)?;
    let commits = number_of(second)?;
    if commits == 0 || commits > 200 {
        return None;
    }
    Some((seed, commits as u32))
}

// The form of the words behind the program's name.
pub fn form_of(words: &[String]) -> Option<Form>
    ensures { let said = map string_bytes words.now in
        MatchOption result (IsNoForm said) (λ form. IsForm form said) }
{
    match words {
        [first, _image] if first.as_str() == "check" => Some(Form::Check),
        [first, _image] if first.as_str() == "replay" => Some(Form::Replay(Style::Text)),
        [first, second, _image] if first.as_str() == "replay" && second.as_str() == "--json" => {
            Some(Form::Replay(Style::Json))
        }
        [first, second, third, _image] if first.as_str() == "make" => {
            let (seed, commits) = seed_and_commits(second.as_str(), third.as_str())?;
            Some(Form::Make { seed, commits })
        }
        _ => None,
    }
}
