//! Accepting a saved image.

ghost use Rattle.std.specs.Prelude.{◌≡◌, ◌≤◌, ◌<◌, length, IfOk, IfErr, OnOk};
ghost use Rattle.cn_base.specs.declared.TheConstants.{MOST_TICKS};
ghost use Rattle.nv_memory.specs.AnyBoardState as any;
ghost use Rattle.nv_memory.specs.declared.layout.Layout.{Layout as Places};
ghost use Rattle.degradation.specs.Placed.{IsLayoutOf};
ghost use Rattle.reference_run.specs.Reference.{AreFor, setting_of};
ghost use Rattle.cn_resume.specs.declared.fault.ImageKind.TheVariants as kind;
ghost use Rattle.cn_resume.specs.Fit.{HoldsBefore, IsFit, IsRefused, IsTaken, image_in, purpose_of};

use crate::fault::ImageFault;
use crate::head::{check_head, number};
use crate::runs::check_run;
use crate::saved::Saved;
use crate::slots::{check_log, check_slot};
use cat_program::Program;
use checkpoint_slots::Slot;
use cn_base::NoMemory;
use event_arrivals::Arrivals;
use nv_memory::{AnyBoard, Device, Layout, layouts_are_numbers};
use std::alloc::Global;

/// A board that holds the image of a file.
fn holding(alloc: Global, device: &Device, file: &[u8]) -> Result<AnyBoard, NoMemory>
    requires head { 16 ≤ length file.now }
    requires size { length file.now < 4294967296 }
    ensures { IfOk result (λ board. (any.state_of board).image ≡ image_in file.now) }
{
    let Ok(image) = file[16..].to_vec(alloc) else {
        return Err(NoMemory);
    };
    AnyBoard::new(alloc, device.copy(), 0, image, Vec::new(alloc))
}

/// The conditions on the image of a file whose head is right.
fn check_image(
    alloc: Global,
    program: &Program,
    versions: &[u8],
    arrivals: &Arrivals,
    device: &Device,
    layout: &Layout,
    life: u32,
    file: &[u8],
) -> Result<(), ImageFault>
    requires belong { AreFor (setting_of program.now versions.now arrivals.now) }
    requires layout { IsLayoutOf program.now device.now layout.now }
    requires life { life ≤ MOST_TICKS }
    requires head { HoldsBefore (purpose_of (setting_of program.now versions.now arrivals.now) layout.now device.now.cap life) file.now kind.Slot }
    ensures fit { OnOk result (IsFit (purpose_of (setting_of program.now versions.now arrivals.now) layout.now device.now.cap life) file.now) }
    ensures refused { IfErr result (IsRefused (purpose_of (setting_of program.now versions.now arrivals.now) layout.now device.now.cap life) file.now) }
{
    let Ok(board) = holding(alloc, device, file) else {
        return Err(ImageFault::NoMemory);
    };
    let Ok(mut slot) = Slot::with_shape(alloc, layout) else {
        return Err(ImageFault::NoMemory);
    };
    let tick = number(file, 1);
    match check_slot(program, layout, &board, tick, &mut slot) {
        Ok(()) => {}
        Err(fault) => return Err(fault),
    }
    let entries = match check_log(alloc, program, layout, &board, tick, &slot) {
        Ok(entries) => entries,
        Err(fault) => return Err(fault),
    };
    check_run(
        alloc,
        program,
        versions,
        arrivals,
        &slot,
        entries.as_slice(),
    )
}

fn layout_for(program: &Program, device: &Device) -> Layout
    ensures { IsLayoutOf program.now device.now result }
{
    let _checked = program.bodies();
    Layout {
        words: program.words(),
        tasks: program.tasks(),
        events: program.events(),
        log: device.log,
        format: 1,
        base: 64,
    }
}

/// What is saved in a file.
fn taken(alloc: Global, file: &[u8]) -> Result<Saved, NoMemory>
    requires { 16 ≤ length file.now }
    ensures { IfOk result (IsTaken file.now) }
{
    let Ok(image) = file[16..].to_vec(alloc) else {
        return Err(NoMemory);
    };
    Ok(Saved {
        tick: number(file, 1),
        stored: number(file, 2),
        image,
    })
}

/// What is saved in a file from which a device can go on with a program, in these versions of its events, on these arrivals, in a
/// life of so many ticks (at most 1,000,000). `docs/FILES.md` tells the conditions on the file.
///
/// # Errors
///
/// `BadImage` with the first condition that fails, and the number that tells where. `NoMemory` where there isn't enough: it takes
/// memory in proportion to the file and to the outputs of the run that the file tells.
pub fn accept(
    alloc: Global,
    program: &Program,
    versions: &[u8],
    arrivals: &Arrivals,
    device: &Device,
    life: u32,
    bytes: &[u8],
) -> Result<Saved, ImageFault>
    requires belong { AreFor (setting_of program.now versions.now arrivals.now) }
    requires life { life ≤ MOST_TICKS }
    ensures fit { (l : Places) → IsLayoutOf program.now device.now l
        → OnOk result (IsFit (purpose_of (setting_of program.now versions.now arrivals.now) l device.now.cap life) bytes.now) }
    ensures taken { IfOk result (IsTaken bytes.now) }
    ensures refused { (l : Places) → IsLayoutOf program.now device.now l
        → IfErr result (IsRefused (purpose_of (setting_of program.now versions.now arrivals.now) l device.now.cap life) bytes.now) }
{
    layouts_are_numbers();
    let layout = layout_for(program, device);
    match check_head(&layout, device.cap, life, bytes) {
        Ok(()) => {}
        Err(fault) => return Err(fault),
    }
    match check_image(
        alloc, program, versions, arrivals, device, &layout, life, bytes,
    ) {
        Ok(()) => {}
        Err(fault) => return Err(fault),
    }
    let Ok(saved) = taken(alloc, bytes) else {
        return Err(ImageFault::NoMemory);
    };
    Ok(saved)
}
