// Copy out: the resting orders in a lent run of order records.
ghost use Rattle.std.specs.Prelude.{◌≡◌, map, length};
ghost use Rattle.book.specs.rules.Words.{resting};
ghost use Rattle.book.specs.rules.OrderRecords.{record_of};
ghost use Rattle.engine.specs.rules.Copy.{copy_outcome, copied, outcome_of_copy};

use crate::{CopyError, refuse};
use book::{BookView, OrderRecord};

// How many records a run of a length is filled with: as many as orders rest.
#[tactic(auto, using(std::proofs::lemmas::Grind::common_steps, crate::proofs::refinement::CopyLaws::sound_book_lem), unfolding(crate::specs::rules::Copy::copy_outcome, numbers::specs::Tests::pick))]
fn copy_count(w: &[u32], records: usize) -> Result<usize, CopyError>
    ensures { outcome_of_copy result ≡ copy_outcome w.now records }
{
    if !refuse::venue_sound(w) {
        return Err(CopyError::VenueBroken);
    }
    let count = BookView::new(w).count();
    if count > records {
        return Err(CopyError::RunTooShort);
    }
    Ok(count)
}

// Copies the resting orders to a run of as many records.
fn copy_orders(book: BookView, run: &mut [OrderRecord])
    requires { length run.old ≡ length (resting book.words.now) }
    ensures { run.new ≡ map record_of (resting book.entry.words.now) }
{
    for (i, record) in run.iter_mut().enumerate() {
        *record = book.record_at(i);
    }
}

// Copies the resting orders to the front of a run: any words, any run. The answer is their count; a refusal changes no record.
pub fn copy_out(w: &[u32], run: &mut [OrderRecord]) -> Result<usize, CopyError>
    ensures { (outcome_of_copy result ≡ copy_outcome w.now (length run.old)) × (run.new ≡ copied w.now run.old) }
{
    let count = copy_count(w, run.len())?;
    copy_orders(BookView::new(w), &mut run[..count]);
    Ok(count)
}
