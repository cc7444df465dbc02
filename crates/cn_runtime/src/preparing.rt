//! What a replay needs: a program's plan on a device, with its arrivals and the versions that its events run in.

ghost use Rattle.std.specs.Prelude.{◌≡◌, ◌≤◌, ℕ, length, slice_index, IfOk, IfErr};
ghost use Rattle.cn_runtime.specs.Planned.{deadlines_in, plan_row, plan_rows, IsChosenFor, IsPlanFor, IsPrepared, IsRefused};
ghost use Rattle.cat_machine.specs.Code.{code_of};
ghost use Rattle.degradation.specs.Placed.{IsLayoutOf};

use crate::prepared::Prepared;
use crate::refused::PrepareFault;
use cat_compile::compile;
use cat_machine::Code;
use cat_program::{Program, events_have_headers};
use cn_base::{List, NoMemory};
use cn_scheduler::{Engine, Plan, PlanRow};
use cost_bounds::bounds;
use degradation::{Chosen, layout_of};
use event_arrivals::Arrivals;
use event_queue::Queue;
use forecast_choice::choose_rows;
use forecast_table::{Epoch, Forecast};
use nv_memory::{Device, Layout};
use std::alloc::{AllocError, Global};

/// The deadline of each event, in order.
fn deadlines_of(alloc: Global, program: &Program) -> Result<Vec<u32>, AllocError>
    ensures each { IfOk result (λ found. found.items ≡ deadlines_in program.now.headers) }
    ensures few { IfOk result (λ found. (event : ℕ) → slice_index found.items event ≤ 1000000) }
{
    let _versions = program.versions();
    events_have_headers();
    let mut found = Vec::new(alloc);
    'events: for number in 0..program.events() {
        found.push(program.event(number).deadline)?;
    }
    Ok(found)
}

/// The row of a plan with what was chosen for a row of a forecast.
fn row_for(alloc: Global, epoch: &Epoch, chosen: &Chosen) -> Result<PlanRow, NoMemory>
    ensures { IfOk result (λ row. row ≡ plan_row epoch.now chosen.now) }
{
    let Ok(versions) = chosen.versions.as_slice().to_vec(alloc) else {
        return Err(NoMemory);
    };
    let Ok(loads) = chosen.loads.as_slice().to_vec(alloc) else {
        return Err(NoMemory);
    };
    Ok(PlanRow {
        from: epoch.tick,
        versions: List::of(versions),
        loads: List::of(loads),
        numbers: chosen.numbers,
    })
}

/// The rows of a plan, one for each row of a forecast.
fn rows_for(
    alloc: Global,
    forecast: &Forecast,
    chosen: &[Chosen],
) -> Result<List<PlanRow>, NoMemory>
    requires { length chosen.now ≡ length forecast.now }
    ensures { IfOk result (λ rows. rows ≡ plan_rows forecast.now chosen.now) }
{
    let epochs = forecast.rows();
    let mut rows = Vec::new(alloc);
    'rows: for place in 0..epochs.len() {
        let row = row_for(alloc, &epochs[place], &chosen[place])?;
        if rows.push(row).is_err() {
            return Err(NoMemory);
        }
    }
    Ok(List::of(rows))
}

/// The versions of a program's events on a device for each row of a forecast, by the bounds of its code.
fn chosen_for(
    alloc: Global,
    program: &Program,
    device: &Device,
    forecast: &Forecast,
    layout: &Layout,
    code: &Code,
) -> Result<List<Chosen>, PrepareFault>
    requires code { code.now ≡ code_of program.now }
    requires layout { IsLayoutOf program.now device.now layout.now }
    ensures chosen { IfOk result (IsChosenFor program.now device.now layout.now forecast.now) }
    ensures refused { IfErr result (IsRefused program.now device.now forecast.now) }
{
    let lines = layout.lines();
    let bounds = bounds(alloc, program, code, device, lines)?;
    match choose_rows(alloc, program, &bounds, device, lines, forecast) {
        Ok(chosen) => Ok(List::of(chosen)),
        Err(fault) => Err(PrepareFault::from(fault)),
    }
}

/// The plan of a forecast's choices: the code, a row for each of them, and the arrivals with the events' deadlines.
fn plan_for(
    alloc: Global,
    program: &Program,
    device: &Device,
    layout: Layout,
    code: Code,
    forecast: &Forecast,
    chosen: &List<Chosen>,
    arrivals: Arrivals,
) -> Result<Plan, NoMemory>
    requires code { code ≡ code_of program.now }
    requires layout { IsLayoutOf program.now device.now layout }
    requires count { length chosen.now ≡ length forecast.now }
    requires events { length arrivals.timings ≡ length program.now.events }
    ensures plan { IfOk result (IsPlanFor program.now device.now arrivals forecast.now chosen.now) }
    ensures layout { IfOk result (λ plan. plan.layout ≡ layout) }
{
    let _checked = program.bodies();
    events_have_headers();
    let rows = rows_for(alloc, forecast, chosen.as_slice())?;
    match deadlines_of(alloc, program) {
        Ok(deadlines) => Ok(Plan {
            code,
            rows,
            wake_units: u64::from(device.wake.bound),
            queue: Queue::start(arrivals, deadlines),
            layout,
        }),
        Err(_) => Err(NoMemory),
    }
}

/// What is prepared beside the program and the device.
#[derive(Drop)]
struct Parts {
    chosen: List<Chosen>,
    plan: Plan,
    engine: Engine,
}

fn parts_of(
    alloc: Global,
    program: &Program,
    device: &Device,
    arrivals: Arrivals,
    forecast: &Forecast,
) -> Result<Parts, PrepareFault>
    requires { length arrivals.timings ≡ length program.now.events }
    ensures prepared { IfOk result (λ parts. IsPrepared program.now device.now arrivals forecast.now (record { program = program.now; device = device.now; forecast = forecast.now; chosen = parts.chosen; plan = parts.plan; engine = parts.engine })) }
    ensures refused { IfErr result (IsRefused program.now device.now forecast.now) }
{
    arrivals.are_sound();
    let _sound = forecast.rows();
    let _checked = program.bodies();
    let layout = layout_of(program, device);
    let engine = Engine::start(alloc, program, &layout)?;
    let code = compile(alloc, program)?;
    let chosen = chosen_for(alloc, program, device, forecast, &layout, &code)?;
    let plan = plan_for(
        alloc, program, device, layout, code, forecast, &chosen, arrivals,
    )?;
    Ok(Parts {
        chosen,
        plan,
        engine,
    })
}

/// Compiles a program, bounds its code on a device, chooses the versions of its events for each row of a forecast, and takes all memory
/// of a replay. The arrivals are those of as many events as the program has.
///
/// # Errors
///
/// `WindowTooLong` and `Rejected` come exactly where some row has no choice of versions, with the first such row, as `choose_rows` says.
pub fn prepare(
    alloc: Global,
    program: Program,
    device: Device,
    arrivals: Arrivals,
    forecast: Forecast,
) -> Result<Prepared, PrepareFault>
    requires { length arrivals.timings ≡ length program.events }
    ensures prepared { IfOk result (IsPrepared program device arrivals forecast) }
    ensures refused { IfErr result (IsRefused program device forecast) }
{
    match parts_of(alloc, &program, &device, arrivals, &forecast) {
        Ok(parts) => Ok(Prepared {
            program,
            device,
            forecast,
            chosen: parts.chosen,
            plan: parts.plan,
            engine: parts.engine,
        }),
        Err(fault) => Err(fault),
    }
}
