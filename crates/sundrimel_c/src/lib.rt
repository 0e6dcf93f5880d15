// The entry of crate `sundrimel`, exported for C and for every host that links an archive.
#![tactic(auto)]

ghost use Rattle.std.specs.Prelude.{length};
ghost use Rattle.definition.specs.Verdict.{verdict};
ghost use Rattle.definition.specs.Reply.{reply};
ghost use Rattle.normalizer.specs.Asked.{asked};
ghost use Rattle.normalizer.specs.Replied.{Replied};

use normalizer::replies::Answer;

// Any request gets an answer or one of the refusals: every number, and every byte of both buffers, is the definition's.
#[unsafe(no_mangle)]
pub extern "C" fn sundrimel_normalize(
    target: &[u8],
    kind: u32,
    exons: &[u8],
    cds_start: i64,
    cds_end: i64,
    start: i32,
    end: i32,
    edit: u32,
    alternative: &[u8],
    direction: u32,
    window: u32,
    reference_out: &mut [u8],
    alternative_out: &mut [u8],
) -> Answer
    ensures { Replied
        (reply reference_out.old alternative_out.old
        (verdict (asked target.now kind exons.now cds_start cds_end start end edit alternative.now direction window
        (length reference_out.old) (length alternative_out.old))))
        result reference_out.new alternative_out.new }
{
    sundrimel::sundrimel_normalize(
        target,
        kind,
        exons,
        cds_start,
        cds_end,
        start,
        end,
        edit,
        alternative,
        direction,
        window,
        reference_out,
        alternative_out,
    )
}
