// What came back of a request, in words: an answer or a refusal on one line.
ghost use Rattle.asking.specs.Page.{Put};
ghost use Rattle.bench.specs.Answers.{alleles_text, answer_text, outcome_text};

use asking::terminal::Page;
use asking::{refusals, values};
use definition::{Answered, Outcome};

// The two buffers of a request, as it left them.
#[derive(Clone, Copy)]
pub(crate) struct Buffers<'a> {
    pub reference: &'a [u8],
    pub alternative: &'a [u8],
}

impl Buffers<'_> {
    // Both alleles, a space before each.
    fn put_alleles(self, page: &mut Page, answer: Answered)
        ensures { Put page.old (alleles_text answer self.entry.reference.now self.entry.alternative.now) page.new }
    {
        page.put(b" ");
        values::put_allele(page, self.reference, answer.reference_size);
        page.put(b" ");
        values::put_allele(page, self.alternative, answer.alternative_size);
    }

    // Class, range, both alleles and probes, with a space between.
    fn put_answer(self, page: &mut Page, answer: Answered)
        ensures { Put page.old (answer_text answer self.entry.reference.now self.entry.alternative.now) page.new }
    {
        values::put_class(page, answer.class);
        page.put(b" ");
        values::put_range(page, answer.start.0, answer.end.0);
        self.put_alleles(page, answer);
        page.put(b" ");
        page.put_number(answer.probes);
    }

    // An outcome on one line.
    pub(crate) fn put_outcome(self, page: &mut Page, outcome: Outcome)
        ensures { Put page.old (outcome_text outcome self.entry.reference.now self.entry.alternative.now) page.new }
    {
        match outcome {
            Ok(answer) => self.put_answer(page, answer),
            Err(refusal) => refusals::put_refusal(page, refusal),
        }
    }
}
