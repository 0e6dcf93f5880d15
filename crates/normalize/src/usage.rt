// What --help prints.
ghost use Rattle.std.specs.Prelude.{◌≡◌};
ghost use Rattle.asking.specs.Page.{Put};
ghost use Rattle.normalize.specs.Usage.{usage_text};

use asking::terminal::Page;

// Puts the usage.
pub(crate) fn put_usage(page: &mut Page)
    ensures { Put page.old usage_text page.new }
{
    page.put(usage().as_bytes());
}

// The usage.
#[tactic(auto, unfolding(crate::specs::Usage::usage_text))]
pub(crate) fn usage() -> &'static str
    ensures { result.now ≡ usage_text }
{
    "normalize: the normal form of one change of a sequence.

  normalize                 two examples
  normalize --help          this text
  normalize OPTION VALUE..  one change

The target, by one of
  --target LETTERS          its letters
  --file PATH               a file of plain letters, or of FASTA with one record: its header and its line ends are skipped
In both, lower case is read as upper case. A target has 1 to 65535 bases, each A, C, G or T.

The change
  --edit NAME               ins, dup, del, replace or inv
  --range START END         counted from 0, with the end not in it; of an insertion, its two flanking bases
  --alt LETTERS             what ins and replace put in, in upper case

Where it may move
  --kind NAME               open, transcript or crossing; open if not given
  --exons LIST              of a transcript, as in 0-4,4-12
  --cds START END           of a transcript; --cds-start START and --cds-end END give one of them
  --direction NAME          right or left; right if not given
  --window N                1 to 1024, which no answer depends on; 20 if not given

The answer is its class, its range counted from 1 with both ends in it, both alleles with - for an empty one, and the probes, which are
the pairs of bases that were compared. Or it is a refusal: its number, its name, and what to change.

Example: normalize --target CAAATGGTACCA --edit del --range 1 2"
}
