// The order call: contour numbers and senses, in the order in which the contours are joined.
#![tactic(auto)]

ghost use Rattle.std.specs.Prelude.{◌≡◌, ◌*◌, ◌≤◌, length};
ghost use Rattle.rules.specs.HandedOver.{plate_of, over, answer_of, WorkKept};
ghost use Rattle.rules.specs.Calls.{order_call};
ghost use Rattle.slices.specs.Pairs.{pairs};
ghost use Rattle.packed_contours.specs.PackedNumbers.{number_in};
ghost use Rattle.order.specs.Senses.{told_sense};

use optimize::optimize_path_order;
use packed_contours::Packed;
use plate::check;
use rules::{Input, Refusal};

// Writes an entry for each packed contour: its number, then 1 if it is reversed, else 0. By index: of what `chunks_exact_mut` lends a proof knows
// how long it is afterwards, and not its numbers.
fn write_entries(words: &[u32], order: &mut [u32])
    requires { 2 * length words.now ≤ length order.old }
    ensures { order.new ≡ over (pairs number_in told_sense words.now) order.old }
{
    for (i, &word) in words.iter().enumerate() {
        let packed = Packed::from(word);
        order[2 * i] = packed.number;
        order[2 * i + 1] = u32::from(packed.reversed);
    }
}

// The order call.
pub fn order_call(input: &Input<'_>, order: &mut [u32], work: &mut [u32]) -> Result<u32, Refusal>
    ensures answer { answer_of result ≡ (order_call (plate_of input.now) order.old (length work.old)).answer }
    ensures order { order.new ≡ (order_call (plate_of input.now) order.old (length work.old)).order }
    ensures work { WorkKept (order_call (plate_of input.now) order.old (length work.old)).answer work.old work.new }
{
    let checked = check(input)?;
    if work.len() < input.lengths.len() {
        return Err(Refusal::WorkShort(0));
    }
    let count = optimize_path_order(&checked, work);
    let room = order.len() / 2;
    let written = count.min(room);
    write_entries(&work[..written], order);
    if room < count {
        return Err(Refusal::Full(room as u32));
    }
    Ok(count as u32)
}
