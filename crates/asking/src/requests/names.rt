// The words of the command line: the options, and the codes of kinds, edits and directions, by their words.
ghost use Rattle.std.specs.Prelude.{◌≡◌, map};
ghost use Rattle.definition.specs.Bases.{same_bases};
ghost use Rattle.asking.specs.Names.{meaning, meant, options, kinds, edits, directions};

// The options.
#[derive(Clone, Copy)]
pub(crate) enum Name {
    Target,
    File,
    Exons,
    Alternative,
    Kind,
    Edit,
    Direction,
    Window,
    CdsStart,
    CdsEnd,
    Cds,
    Range,
}

const OPTIONS: [(&str, Name); 12] = [
    ("--target", Name::Target),
    ("--file", Name::File),
    ("--exons", Name::Exons),
    ("--alt", Name::Alternative),
    ("--kind", Name::Kind),
    ("--edit", Name::Edit),
    ("--direction", Name::Direction),
    ("--window", Name::Window),
    ("--cds-start", Name::CdsStart),
    ("--cds-end", Name::CdsEnd),
    ("--cds", Name::Cds),
    ("--range", Name::Range),
];

const KINDS: [(&str, u32); 3] = [("open", 0), ("transcript", 1), ("crossing", 2)];

const EDITS: [(&str, u32); 5] = [
    ("ins", 0),
    ("dup", 1),
    ("del", 2),
    ("replace", 3),
    ("inv", 4),
];

const DIRECTIONS: [(&str, u32); 2] = [("right", 0), ("left", 1)];

// What a word stands for: what the first row that has it says.
fn meaning<A: Copy>(rows: &[(&str, A)], word: &[u8]) -> Option<A>
    ensures { result ≡ meant (map (λ row. (row.0.now, row.1)) rows.now) word.now }
{
    for (name, value) in rows {
        if word == name.as_bytes() {
            return Some(*value);
        }
    }
    None
}

// The option that a word names.
#[tactic(auto, unfolding(crate::specs::Names::meaning, crate::specs::Names::meant))]
pub(crate) fn option_of(word: &[u8]) -> Option<Name>
    ensures { result ≡ meaning options word.now }
{
    meaning(&OPTIONS, word)
}

// The code of a kind.
#[tactic(auto, unfolding(crate::specs::Names::meaning, crate::specs::Names::meant))]
pub(crate) fn kind_of(word: &[u8]) -> Option<u32>
    ensures { result ≡ meaning kinds word.now }
{
    meaning(&KINDS, word)
}

// The code of an edit.
#[tactic(auto, unfolding(crate::specs::Names::meaning, crate::specs::Names::meant))]
pub(crate) fn edit_of(word: &[u8]) -> Option<u32>
    ensures { result ≡ meaning edits word.now }
{
    meaning(&EDITS, word)
}

// The code of a direction.
#[tactic(auto, unfolding(crate::specs::Names::meaning, crate::specs::Names::meant))]
pub(crate) fn direction_of(word: &[u8]) -> Option<u32>
    ensures { result ≡ meaning directions word.now }
{
    meaning(&DIRECTIONS, word)
}
