//! The commands, and the words that spell them.
ghost use Rattle.std.specs.Prelude.{◌≡◌, ◌<◌, ◌^◌, codes, IfOk, IfSome, IfNone};
ghost use Rattle.command_words.specs.{Commands.{kind_of, IsNumber, IsSaid, IsSpelled, AreNoCommand, AreOneCommand, PlainWordsAreCommands}, Texts.{Finds, texts}, declared.command.Command.TheVariants.{Cut, Apply, Path, Hunt}};

use crate::NoMemory;
use crate::audit::{AuditPlan, audit_said};
use crate::given::{Given, given_by};
use crate::kind::{Kind, kind_named};
use crate::numbers::{count_in, count_or, number_in};
use crate::plan::{PlayPlan, plan_said};
use line_text::read_u64;
use std::alloc::Global;
use std::marker::Model;

// The greatest penalty, the greatest least length of segments, and the most commits of a round.
const PENALTY_LIMIT: u128 = 1_000_000_000_000_000_000_000_000_000_000_000_000;

const LENGTH_LIMIT: u8 = 64;

const WIDTH_LIMIT: u8 = 8;

/// A text that the words have. Contracts see its bytes.
#[derive(Drop)]
pub struct Word<'a> {
    text: &'a str,
}

impl<'a> Model for Word<'a> {
    ghost use Rattle.std.specs.Prelude.{List, ℕ};

    ghost Value = { List ℕ };

    ghost view = { λ s. s.text.now };
}

impl<'a> Word<'a> {
    /// The word of this text.
    pub fn of(text: &'a str) -> Word<'a>
        ensures { result ≡ text.now }
    {
        Word { text }
    }

    /// Its text.
    pub fn as_str(&self) -> &'a str
        ensures { result.now ≡ self.now }
    {
        self.text
    }
}

/// What `cut` is asked for: the penalty, the least length of segments, and whether distances are summed and not squares.
#[derive(Drop)]
pub struct CutPlan {
    pub penalty: u128,
    pub least: u8,
    pub absolute: bool,
}

/// What `path` is asked for: the least and the greatest penalty.
#[derive(Drop)]
pub struct PathPlan {
    pub low: u128,
    pub high: u128,
}

/// What `hunt` is asked for: how many commits a round asks at most, and the word of the test.
#[derive(Drop)]
pub struct HuntPlan<'a> {
    pub width: u8,
    pub test: Word<'a>,
}

/// A command, as the words say it.
#[derive(Drop)]
pub enum Command<'a> {
    /// Reads cut lines, and prints the certificate of the best segmentation.
    Cut(CutPlan),
    /// Answers the script that the input has, on the machines of this store, if there is one.
    Apply(Option<Word<'a>>),
    /// Writes the script of this number.
    Gen(u64),
    /// Answers the script of this number, and writes the replies about segmentations.
    Trial(u64),
    /// Answers these scripts at once.
    Play(PlayPlan<'a>),
    /// Reads cut lines, and prints every best segmentation of a range of penalties.
    Path(PathPlan),
    /// Reads names of commits, and searches the first bad one by rounds of tests.
    Hunt(HuntPlan<'a>),
    /// Reads journals, scripts and transcripts, and says whether they fit together.
    Audit(AuditPlan<'a>),
}

/// The command that the words are, if they are one: a command's name, and words that its simple command takes, which say
/// what the command has.
///
/// Linear in the bytes of the words. Takes memory, as a reader of command lines does.
pub fn command_of(alloc: Global, words: &[String]) -> Result<Option<Command<'_>>, NoMemory>
    ensures some { IfOk result (λ told. IfSome told (IsSpelled (texts words.now))) }
    ensures none { IfOk result (λ told. IfNone told (AreNoCommand (texts words.now))) }
{
    let Some((name, rest)) = words.split_first() else {
        return Ok(None);
    };
    let Some(kind) = kind_named(name.as_str()) else {
        return Ok(None);
    };
    let Some(given) = given_by(alloc, kind, rest)? else {
        return Ok(None);
    };
    said_by(alloc, kind, &given)
}

// The command of this kind that its arguments say, if they say one.
fn said_by<'a>(
    alloc: Global,
    kind: Kind,
    given: &Given<'a>,
) -> Result<Option<Command<'a>>, NoMemory>
    ensures { IfOk result (Finds (λ c. (kind_of c ≡ kind) × IsSaid given.now c)) }
{
    match kind {
        Kind::Cut => {
            let Some(cut) = cut_said(given) else {
                return Ok(None);
            };
            Ok(Some(Command::Cut(cut)))
        }
        Kind::Apply => {
            let Some(store) = store_said(given) else {
                return Ok(None);
            };
            Ok(Some(Command::Apply(store)))
        }
        Kind::Gen => {
            let Some(number) = number_said(given) else {
                return Ok(None);
            };
            Ok(Some(Command::Gen(number)))
        }
        Kind::Trial => {
            let Some(number) = number_said(given) else {
                return Ok(None);
            };
            Ok(Some(Command::Trial(number)))
        }
        Kind::Play => {
            let Some(plan) = plan_said(alloc, given)? else {
                return Ok(None);
            };
            Ok(Some(Command::Play(plan)))
        }
        Kind::Path => {
            let Some(path) = path_said(given) else {
                return Ok(None);
            };
            Ok(Some(Command::Path(path)))
        }
        Kind::Hunt => {
            let Some(hunt) = hunt_said(given) else {
                return Ok(None);
            };
            Ok(Some(Command::Hunt(hunt)))
        }
        Kind::Audit => {
            let Some(audit) = audit_said(alloc, given)? else {
                return Ok(None);
            };
            Ok(Some(Command::Audit(audit)))
        }
    }
}

// What the arguments of `cut` ask for.
fn cut_said(given: &Given<'_>) -> Option<CutPlan>
    ensures { Finds (λ cut. IsSaid given.now (Cut cut)) result }
{
    let penalty = number_in(given.value("PENALTY"), PENALTY_LIMIT)?;
    let least = count_or(1, given.value("least"), 1, LENGTH_LIMIT)?;
    let absolute = given.has_flag("absolute");
    Some(CutPlan {
        penalty,
        least,
        absolute,
    })
}

// The store that the arguments of `apply` name, if they name one.
fn store_said<'a>(given: &Given<'a>) -> Option<Option<Word<'a>>>
    ensures { Finds (λ store. IsSaid given.now (Apply store)) result }
{
    let Some(name) = given.value("store") else {
        return Some(None);
    };
    if name.is_empty() {
        return None;
    }
    Some(Some(Word::of(name)))
}

// The number that the one argument has.
fn number_said(given: &Given<'_>) -> Option<u64>
    ensures { Finds (λ number.
        IsNumber given.now (codes "NUMBER") number × (number < 2 ^ 64)) result }
{
    read_u64(given.value("NUMBER")?.as_bytes())
}

// What the arguments of `path` ask for.
fn path_said(given: &Given<'_>) -> Option<PathPlan>
    ensures { Finds (λ path. IsSaid given.now (Path path)) result }
{
    let low = number_in(given.value("LOW"), PENALTY_LIMIT)?;
    let high = number_in(given.value("HIGH"), PENALTY_LIMIT)?;
    if low > high {
        return None;
    }
    Some(PathPlan { low, high })
}

// What the arguments of `hunt` ask for.
fn hunt_said<'a>(given: &Given<'a>) -> Option<HuntPlan<'a>>
    ensures { Finds (λ hunt. IsSaid given.now (Hunt hunt)) result }
{
    let width = count_in(given.value("K"), 1, WIDTH_LIMIT)?;
    let test = given.value("test")?;
    if test.is_empty() {
        return None;
    }
    Some(HuntPlan {
        width,
        test: Word::of(test),
    })
}

/// No words are two commands. Does nothing: its contract is what it is for.
pub fn one_command_law()
    ensures { AreOneCommand }
{}

/// The plain words of a command are it. Does nothing: its contract is what it is for.
pub fn plain_words_law()
    ensures { PlainWordsAreCommands }
{}
