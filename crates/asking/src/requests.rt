// A request as words give it: an option's name, then its values. The words are those of a command line, each ended by a byte 0.
mod names;

ghost use Rattle.std.specs.Prelude.{◌≡◌, ◌+◌, ◌≤◌, min, length};
ghost use Rattle.asking.specs.Request.{nothing, given, with_setting};
ghost use Rattle.asking.specs.Options.{Onward, numbers_at, said_by, behind, step_at, broken_at, request_of};

use crate::requests::names::Name;
use crate::{decimals, lines, text};

/// Where the words begin that are read later, in the text of the words: `None` for one that was not given.
// Places and no slices: `request-of-one` of RequestsUnique shows two requests equal, which would fail of slices that lie elsewhere.
#[derive(Clone, Copy)]
pub struct Words {
    pub target: Option<usize>,
    pub file: Option<usize>,
    pub exons: Option<usize>,
    pub alternative: Option<usize>,
}

/// The numbers that words stand for, as the normalizer takes them: kinds from 0 to 2, edits from 0 to 4, directions 0 and 1, and the window as it was
/// given. An edit has none where it was not given.
#[derive(Clone, Copy)]
pub struct Codes {
    pub kind: u32,
    pub edit: Option<u32>,
    pub direction: u32,
    pub window: u32,
}

/// The bounds of the CDS, counted from 0: `None` for one that was not given.
#[derive(Clone, Copy)]
pub struct Bounds {
    pub start: Option<u32>,
    pub end: Option<u32>,
}

/// What words ask for. The range is that of the edit, counted from 0, from its start up to its end, which is not in it.
#[derive(Clone, Copy)]
pub struct Request {
    pub words: Words,
    pub codes: Codes,
    pub bounds: Bounds,
    pub range: Option<(u32, u32)>,
}

/// What is wrong with an option.
#[derive(Clone, Copy)]
pub enum Fault {
    /// The word is no option.
    UnknownOption,
    /// No word stands behind the option.
    NoValue,
    /// The kind has no such name.
    BadKind,
    /// The edit has no such name.
    BadEdit,
    /// The direction has no such name.
    BadDirection,
    /// The window is no number from 0 to 2,147,483,647.
    BadWindow,
    /// An end of the range is no number from 0 to 2,147,483,647.
    BadRange,
    /// A bound of the CDS is no number from 0 to 2,147,483,647.
    BadBound,
}

/// What is wrong with the option that begins at an index of the text of the words.
#[derive(Clone, Copy)]
pub struct Broken {
    pub fault: Fault,
    pub at: usize,
}

// What an option says: where the word begins that is read later, or the numbers that its words stand for.
#[derive(Clone, Copy)]
pub(crate) enum Setting {
    Target(usize),
    File(usize),
    Exons(usize),
    Alternative(usize),
    Kind(u32),
    Edit(u32),
    Direction(u32),
    Window(u32),
    CdsStart(u32),
    CdsEnd(u32),
    Cds(u32, u32),
    Range(u32, u32),
}

// What an option says, and where the option after it begins.
#[derive(Clone, Copy)]
pub(crate) struct Step {
    pub(crate) setting: Setting,
    pub(crate) next: usize,
}

// Nothing asked for yet: an open target, rightward, in windows of 20.
fn nothing() -> Request
    ensures { result ≡ nothing }
{
    Request {
        words: Words {
            target: None,
            file: None,
            exons: None,
            alternative: None,
        },
        codes: Codes {
            kind: 0,
            edit: None,
            direction: 0,
            window: 20,
        },
        bounds: Bounds {
            start: None,
            end: None,
        },
        range: None,
    }
}

impl Request {
    // The request with what an option says.
    fn set(&mut self, setting: Setting)
        ensures { self.new ≡ with_setting setting self.old }
    {
        match setting {
            Setting::Target(at) => self.words.target = Some(at),
            Setting::File(at) => self.words.file = Some(at),
            Setting::Exons(at) => self.words.exons = Some(at),
            Setting::Alternative(at) => self.words.alternative = Some(at),
            Setting::Kind(code) => self.codes.kind = code,
            Setting::Edit(code) => self.codes.edit = Some(code),
            Setting::Direction(code) => self.codes.direction = code,
            Setting::Window(size) => self.codes.window = size,
            Setting::CdsStart(start) => self.bounds.start = Some(start),
            Setting::CdsEnd(end) => self.bounds.end = Some(end),
            Setting::Cds(start, end) => self.bounds = Bounds {
                start: Some(start),
                end: Some(end),
            },
            Setting::Range(start, end) => self.range = Some((start, end)),
        }
    }
}

// The two numbers of the word that begins at an index and the one behind it.
fn numbers_at(text: &[u8], at: usize) -> Option<(u32, u32)>
    ensures { result ≡ numbers_at text.now at }
{
    let start = decimals::decimal(lines::word(text, at))?;
    let end = decimals::decimal(lines::word(text, text::after(text, at, 0)))?;
    Some((start, end))
}

// What an option says by its words, the first of which begins at an index. A word that is read later, as a target's letters, isn't looked at.
#[tactic(auto, unfolding(crate::specs::Options::said_by))]
fn said_by(text: &[u8], option: Name, at: usize) -> Result<Setting, Fault>
    ensures { result ≡ said_by text.now at option }
{
    match option {
        Name::Target => Ok(Setting::Target(at)),
        Name::File => Ok(Setting::File(at)),
        Name::Exons => Ok(Setting::Exons(at)),
        Name::Alternative => Ok(Setting::Alternative(at)),
        Name::Kind => names::kind_of(lines::word(text, at))
            .map(Setting::Kind)
            .ok_or(Fault::BadKind),
        Name::Edit => names::edit_of(lines::word(text, at))
            .map(Setting::Edit)
            .ok_or(Fault::BadEdit),
        Name::Direction => names::direction_of(lines::word(text, at))
            .map(Setting::Direction)
            .ok_or(Fault::BadDirection),
        Name::Window => decimals::decimal(lines::word(text, at))
            .map(Setting::Window)
            .ok_or(Fault::BadWindow),
        Name::CdsStart => decimals::decimal(lines::word(text, at))
            .map(Setting::CdsStart)
            .ok_or(Fault::BadBound),
        Name::CdsEnd => decimals::decimal(lines::word(text, at))
            .map(Setting::CdsEnd)
            .ok_or(Fault::BadBound),
        Name::Cds => numbers_at(text, at)
            .map(|(start, end)| Setting::Cds(start, end))
            .ok_or(Fault::BadBound),
        Name::Range => numbers_at(text, at)
            .map(|(start, end)| Setting::Range(start, end))
            .ok_or(Fault::BadRange),
    }
}

// Where the option after it begins.
fn behind(text: &[u8], option: Name, at: usize) -> usize
    ensures value { result ≡ behind text.now at option }
    ensures upper_bound { min (at + 1) (length text.now) ≤ result }
{
    let next = text::after(text, at, 0);
    match option {
        Name::Cds | Name::Range => text::after(text, next, 0),
        _ => next,
    }
}

// The option that begins at an index.
#[tactic(auto, unfolding(crate::specs::Options::step_at))]
fn step_at(text: &[u8], at: usize) -> Result<Step, Fault>
    ensures value { result ≡ step_at text.now at }
    ensures onward { Onward text.now at result }
{
    let option = names::option_of(lines::word(text, at)).ok_or(Fault::UnknownOption)?;
    let value = text::after(text, at, 0);
    if value == text.len() {
        return Err(Fault::NoValue);
    }
    let setting = said_by(text, option, value)?;
    Ok(Step {
        setting,
        next: behind(text, option, value),
    })
}

// The same, or what is wrong with it and where it begins.
fn option_at(text: &[u8], at: usize) -> Result<Step, Broken>
    ensures value { result ≡ broken_at at (step_at text.now at) }
    ensures onward { Onward text.now at result }
{
    step_at(text, at).map_err(|fault| Broken { fault, at })
}

/// The request that words make, each ended by a byte 0. An error is what is wrong with the first option that is broken, and where that begins.
pub fn request_of(text: &[u8]) -> Result<Request, Broken>
    ensures { result ≡ request_of text.now }
{
    let mut request = nothing();
    let mut at = 0;
    // A step is an option with its values, so no `for` counts it.
    while at < text.len() {
        let step = option_at(text, at)?;
        request.set(step.setting);
        at = step.next;
    }
    Ok(request)
}

/// The word that an option gave: empty where it was not given.
#[tactic(auto, unfolding(crate::specs::Request::given))]
pub fn given(text: &[u8], word: Option<usize>) -> &[u8]
    ensures { result.now ≡ given text.now word }
{
    match word {
        Some(at) => lines::word(text, at),
        None => &text[..0],
    }
}
