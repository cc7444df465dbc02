ghost use Rattle.std.specs.Prelude.{◌≡◌, ◌≤◌, length, replicate, IfOk};
ghost use Rattle.checkpoint_slots.specs.Slot.{variables_of};
ghost use Rattle.recovery.specs.First.{IsFresh};

use cat_program::Program;
use checkpoint_slots::{Slot, slots_are_read_again, spell_into};
use cn_base::NoMemory;
use nv_memory::{Layout, parts_are_apart, writes_are_local};
use std::alloc::Global;

// Sets the program's first words.
fn first_words(program: &Program, slot: &mut Slot)
    requires { length slot.old.words ≡ length program.now.words }
    ensures words { variables_of slot.new ≡ program.now.words }
    ensures others { slot.new ≡ record slot.old { words = slot.new.words } }
    ensures length { length slot.new.words ≡ length slot.old.words }
{
    for w in 0..program.words() {
        slot.set_word(w, program.initial(w));
    }
}

// Sets the posts that the program starts with.
fn first_posts(program: &Program, slot: &mut Slot)
    requires { length slot.old.posts ≡ length program.now.tasks }
    ensures posts { slot.new ≡ record slot.old { posts = program.now.started } }
    ensures length { length slot.new.posts ≡ length slot.old.posts }
{
    for t in 0..program.tasks() {
        slot.set_post(t, program.started(t));
    }
}

fn zeros(alloc: Global, n: usize) -> Result<Vec<u8>, NoMemory>
    ensures { IfOk result (λ image. image.items ≡ replicate n 0) }
{
    match vec![in alloc; 0u8; n] {
        Ok(image) => Ok(image),
        Err(_) => Err(NoMemory),
    }
}

/// The image that a device starts with: gate 0, and in slot 0 no records, no steps, no place, the program's first words
/// and posts, and done counts 0. All other bytes are zero. The layout has the program's counts of words, tasks and events.
pub fn fresh_image(alloc: Global, program: &Program, layout: &Layout) -> Result<Vec<u8>, NoMemory>
    requires words { layout.now.words ≡ length program.now.words }
    requires tasks { layout.now.tasks ≡ length program.now.tasks }
    requires events { layout.now.events ≡ length program.now.events }
    ensures { IfOk result (λ image. IsFresh program.now layout.now image.items) }
{
    writes_are_local();
    parts_are_apart();
    slots_are_read_again();
    let mut slot = match Slot::with_shape(alloc, layout) {
        Ok(slot) => slot,
        Err(refused) => return Err(refused),
    };
    first_words(program, &mut slot);
    first_posts(program, &mut slot);
    slot.fits();
    let mut image = match zeros(alloc, layout.size() as usize) {
        Ok(image) => image,
        Err(refused) => return Err(refused),
    };
    spell_into(
        &slot,
        layout.lines(),
        &mut image,
        layout.slot_at(0) as usize,
    );
    Ok(image)
}
