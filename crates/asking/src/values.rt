// The values of an answer, in words: its class, its range and an allele.
ghost use Rattle.std.specs.Prelude.{◌≡◌};
ghost use Rattle.asking.specs.Page.{Put};
ghost use Rattle.asking.specs.Values.{class_name, range_text, allele_text};

use crate::terminal::Page;
use crate::text;
use definition::Class;

/// The name of a class, in lower case.
#[tactic(auto, unfolding(crate::specs::Values::class_name))]
pub fn class_name(class: Class) -> &'static str
    ensures { result.now ≡ class_name class }
{
    match class {
        Class::Insertion => "insertion",
        Class::Duplication => "duplication",
        Class::Deletion => "deletion",
        Class::Replacement => "replacement",
        Class::Inversion => "inversion",
        Class::Unchanged => "unchanged",
    }
}

/// Puts the name of a class.
pub fn put_class(page: &mut Page, class: Class)
    ensures { Put page.old (class_name class) page.new }
{
    page.put(class_name(class).as_bytes());
}

/// Puts a range with both ends in it, as `2,4`.
pub fn put_range(page: &mut Page, start: usize, end: usize)
    ensures { Put page.old (range_text start end) page.new }
{
    page.put_number(start);
    page.put(b",");
    page.put_number(end);
}

/// Puts an allele, which is the front of its buffer: a dash where it is empty.
// Buffer and size come apart, as an answer has them: `allele_text` speaks of both.
pub fn put_allele(page: &mut Page, buffer: &[u8], size: usize)
    ensures { Put page.old (allele_text buffer.now size) page.new }
{
    if size == 0 {
        page.put(b"-");
    } else {
        page.put(text::part(buffer, 0, size));
    }
}
