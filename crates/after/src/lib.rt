// The block of an accepted report: a plan that was decided before is written.
#![tactic(auto)]

ghost use Rattle.std.specs.Prelude.{◌≡◌, ◌≤◌, length};
ghost use Rattle.fields.specs.Lists.{pick, put};
ghost use Rattle.report.specs.Report.{most_parts, head_of, parts_of, part_count_of};
ghost use Rattle.rules.specs.Questions.{record_of};
ghost use Rattle.rules.specs.After.{put_row, pair_bytes, slot_bytes};
ghost use Rattle.rules.specs.Block.{pairs_start, slot_size, block_size};
ghost use Rattle.after.specs.Plan.{slot_made, row_planned, head_made, slots_planned, plan_applied};

use block::{BLOCK_SIZE, HEAD_SIZE, Pair, SLOT_SIZE};
use quantities::Minute;
use report::{Head, MOST_PARTS};
use rules::Row;

// The slots that are cleared, the slot that is written, and whether the row changes. As `judge::Decision` has them: this crate knows nothing
// of the questions, nor `judge` of what writes.
#[derive(Clone, Copy)]
pub struct Plan {
    pub cleared: [bool; 8],
    pub written: Option<u8>,
    pub changes: bool,
}

// An accepted report, with its head: a slot has room for its parts.
#[derive(Drop)]
struct Accepted<'a> {
    report: &'a [u8],
    head: Head,
    ghost is_head: { head ≡ head_of report.now },
    ghost few_parts: { part_count_of report.now ≤ most_parts },
}

impl Accepted<'_> {
    // Pair by pair: at the end of a loop over `as_chunks_mut` nothing is known of what the slot holds.
    fn put_pairs(&self, z: &mut [u8])
        ensures { z.new ≡ put z.old pairs_start (pair_bytes (parts_of self.now.report.now)) }
    {
        for j in 0..self.head.part_count {
            let part = report::part_level(self.report, j);
            let end = part.end;
            let power = part.power;
            block::put_pair(z, j, Pair { end, power });
        }
    }

    fn write_slot(&self, z: &mut [u8])
        requires { length z.old ≡ slot_size }
        ensures { z.new ≡ slot_bytes (record_of self.now.report.now) (parts_of self.now.report.now) }
    {
        block::clear(z);
        block::put_record(z, records::record_by(self.head), self.head.part_count);
        self.put_pairs(z);
    }

    #[tactic(auto, unfolding(crate::specs::Plan::slot_made, fields::specs::Lists::pick))]
    // Two flags, as the plan has them: a slot can be both, and is then written.
    fn set_slot(&self, z: &mut [u8], written: bool, cleared: bool)
        requires { length z.old ≡ slot_size }
        ensures { z.new ≡ slot_made self.now.report.now written cleared z.old }
    {
        if written {
            self.write_slot(z);
        } else if cleared {
            block::clear(z);
        }
    }

    // No `chunks_exact_mut`, as in set-up: at the end of such a loop nothing is known of what the block holds.
    fn set_slots(&self, b: &mut [u8], plan: Plan)
        requires { length b.old ≡ block_size }
        ensures { b.new ≡ slots_planned b.old self.now.report.now plan }
    {
        for (i, cleared) in plan.cleared.iter().enumerate() {
            let a = HEAD_SIZE + SLOT_SIZE * i;
            let e = a + SLOT_SIZE;
            self.set_slot(&mut b[a..e], Some(i as u8) == plan.written, *cleared);
        }
    }

    // The unit's row after the event step.
    fn row_after(&self, b: &[u8]) -> Row
        ensures { result ≡ row_planned b.now self.now.report.now }
    {
        let mut row = block::unit_head(b).row;
        row::step(&mut row, self.head);
        row
    }
}

#[tactic(auto, unfolding(fields::specs::Lists::pick))]
// Flag and row apart, as `head_made` has them: the row after the step is there in either case.
fn change_row(b: &mut [u8], changes: bool, row: Row)
    ensures { b.new ≡ pick changes (put_row b.old row) b.old }
{
    if changes {
        block::put_row(b, row);
    }
}

#[tactic(auto, unfolding(crate::specs::Plan::head_made, block::specs::Codec::put_last_stamp))]
fn set_head(b: &mut [u8], changes: bool, row: Row, stamp: Minute)
    ensures { b.new ≡ head_made b.old changes row stamp.0 }
{
    change_row(b, changes, row);
    block::put_last_stamp(b, stamp);
}

// Writes the plan. A block of another length, or after a report of more than 100 parts, is left as it is.
pub fn apply(b: &mut [u8], report: &[u8], plan: Plan)
    ensures { b.new ≡ plan_applied b.old report.now plan }
{
    let h = report::head_of(report);
    if (b.len() == BLOCK_SIZE) & (h.part_count <= MOST_PARTS) {
        let accepted = Accepted { report, head: h };
        let row = accepted.row_after(b);
        accepted.set_slots(b, plan);
        set_head(b, plan.changes, row, h.stamp);
    }
}
