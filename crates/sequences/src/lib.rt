// Sequences of bases: how much two alleles share at either end. No function reads outside its slice.
// The Rust gives a count and both trimmed alleles in one answer. Here the count comes back alone, and a caller takes the rest of each allele by it.
// Both have the Rust's names, which documents cite; the work is in `reach`.
#![tactic(auto)]

pub mod bases;
pub mod reach;

ghost use Rattle.std.specs.Prelude.{◌≡◌};
ghost use Rattle.definition.specs.Prefix.{lcp, lcs};

/// How long a beginning the two share.
pub fn trim_common_prefixes(reference: &[u8], alternative: &[u8]) -> usize
    ensures { result ≡ lcp reference.now alternative.now }
{
    reach::common(reference, alternative)
}

/// How long an end the two share.
pub fn trim_common_suffixes(reference: &[u8], alternative: &[u8]) -> usize
    ensures { result ≡ lcs reference.now alternative.now }
{
    reach::common_end(reference, alternative)
}
