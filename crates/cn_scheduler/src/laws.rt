// What holds of the definitions.
ghost use Rattle.std.specs.Prelude.{◌≡◌, ◌≤◌, length};
ghost use Rattle.cat_program.specs.Checked.{Checked};
ghost use Rattle.cat_machine.specs.Code.{code_of};
ghost use Rattle.nv_memory.specs.Layout.{size_of};
ghost use Rattle.nv_memory.specs.Board.{State};
ghost use Rattle.recovery.specs.First.{IsFresh};
ghost use Rattle.cn_scheduler.specs.declared.engine.Engine.{Engine as Engined};
ghost use Rattle.cn_scheduler.specs.Belongs.{IsPlanOf, BelongTogether};
ghost use Rattle.cn_scheduler.specs.EnginePoint.{point_of, IsFirst};
ghost use Rattle.cn_scheduler.specs.declared.plan.Plan.{Plan as Planned};
ghost use Rattle.cn_scheduler.specs.declared.choice.Choice.{Choice as Chosen};
ghost use Rattle.cn_scheduler.specs.Point.{Point};
ghost use Rattle.cn_scheduler.specs.Policy.{Chooses};
ghost use Rattle.cn_scheduler.specs.Warrants.{Warrants};
ghost use Rattle.cn_scheduler.specs.declared.engine.Chunk.{Chunk as Outcome};
ghost use Rattle.cn_scheduler.specs.Chunks.{Does, SleepsOn};
ghost use Rattle.cn_scheduler.specs.Lawful.{AreChunks};

/// What each choice of the policy says, and that it names one.
pub fn choices_are_warranted()
    ensures once { (plan : Planned) (p : Point) (one other : Chosen) → Chooses plan p one → Chooses plan p other → one ≡ other }
    ensures warranted { (plan : Planned) (p : Point) (choice : Chosen) → Chooses plan p choice → Warrants plan p choice }
{}

/// What a call brings is a chunk of a lawful timeline, or for sleep some of them.
pub fn chunks_are_lawful()
    ensures one { (plan : Planned) (p : Point) (choice : Chosen) (outcome : Outcome) (q : Point) → Chooses plan p choice → Does plan p choice outcome q → AreChunks plan p outcome q }
    ensures sleeping { (plan : Planned) (p : Point) (outcome : Outcome) (q : Point) → SleepsOn plan p outcome q → AreChunks plan p outcome q }
{}

/// A plan, an engine that has just started, and a board with the first image belong together.
pub fn first_belongs()
    ensures { (program : Checked) (plan : Planned) (engine : Engined) (board : State) → plan.code ≡ code_of program → IsPlanOf program plan → IsFirst program plan.layout engine →
        IsFresh program plan.layout board.image → size_of plan.layout ≤ length board.image → BelongTogether program plan (point_of engine board) }
{}
