// Rows 7 and 8: what is asked of the alleles that an edit reads, each in a function that says whether its row is given.
ghost use Rattle.std.specs.Prelude.{◌≡◌, not, ◌≤◌};
ghost use Rattle.definition.specs.Bases.{all_bases};
ghost use Rattle.definition.specs.Verdict.{exceeds, read_alternative};

use crate::edits::reads_alternative;
use definition::{Edit, LONGEST_ALLELE, Range};
use sequences::bases;

/// Row 7: the range, or an alternative that is read, has more bases than the longest allele.
#[tactic(auto, using(crate::proofs::AllelesReadRead::exceeds_read))]
pub fn too_long(edit: Edit, range: Range, alternative: &[u8]) -> bool
    requires { range.start.0 ≤ range.end.0 }
    ensures { result ≡ exceeds edit range.start.0 range.end.0 alternative.now }
{
    let reads = reads_alternative(edit);
    (LONGEST_ALLELE < range.end.0 - range.start.0) | (reads & (LONGEST_ALLELE < alternative.len()))
}

/// Row 8: an alternative that is read holds a byte that is no base.
#[tactic(auto, using(crate::proofs::AllelesReadRead::bases_read, crate::proofs::AllelesReadRead::bases_not_read))]
pub fn bad_allele(edit: Edit, alternative: &[u8]) -> bool
    ensures { result ≡ not (all_bases (read_alternative edit alternative.now)) }
{
    reads_alternative(edit) && !bases::all_bases(alternative)
}
