// The walker: which lost elements chains of rows and diagonals build, and by which steps. It sees the map of diagonals and flags, no bytes.
#![tactic(auto)]

mod find;
mod lost;
mod map;
mod plan;

ghost use Rattle.std.specs.Prelude.{◌+◌, ◌<◌, ◌≤◌};
ghost use Rattle.code.specs.Layout.{pair};
ghost use Rattle.code.specs.Live.{row, diagonal};
ghost use Rattle.code.specs.Walk.{Walk};
ghost use Rattle.walker.specs.Written.{written};
ghost use Rattle.walker.specs.Map.{drawn_by};
ghost use Rattle.walker.specs.Chain.{State, Stepped};
ghost use Rattle.walker.specs.Sweep.{Swept};
ghost use Rattle.walker.specs.Closing.{BuiltV, BuiltH};

use crate::lost::Lost;
pub use map::Map;
pub use plan::{Kind, Plan, Step};

// What a walk hands back: its plan, and whether the plan builds every lost place. No Option: `Walk` promises the plan that leaves some, too.
#[derive(Clone, Copy)]
pub struct Walked {
    pub plan: Plan,
    pub whole: bool,
}

// How far a walk has come: which elements are built, and the steps that built them.
#[derive(Clone, Copy)]
struct Progress {
    built: [[bool; 32]; 32],
    plan: Plan,
}

// A row step opens a diagonal step and a diagonal step a row step: the specification names this form, so they are two functions that call each
// other and not one over a line. Each leaves one unknown element less.
impl Lost<'_> {
    ghost use Rattle.walker.specs.Lines.{layout, lost};

    // Builds the one unknown element of row i, if it has one, and goes on by the diagonal of that element.
    // Compiled into diagonal_step, it makes a chain a loop: judging the weak shape n=8 r=5 s=1 took 6,237 instructions so, and as calls 7,583.
    #[cycle(chain)]
    #[inline(always)]
    fn row_step(&self, i: usize, so_far: &mut Progress)
        requires row { i < self.now.map.now.r }
        requires state { State (layout self.now) (lost self.now) so_far.old.built so_far.old.plan.steps so_far.old.plan.count }
        ensures { Stepped (layout self.now) (lost self.now) (row i) so_far.old.built so_far.new.built so_far.new.plan.steps so_far.new.plan.count }
    {
        let Some((h, l)) = self.lone_in_row(&so_far.built, i) else {
            return;
        };
        so_far.built[h][l] = true;
        so_far.plan.push(Kind::ByRow, h, l);
        self.diagonal_step(usize::from(self.map.diagonals[h][l]), so_far);
    }

    // Builds the one unknown element of diagonal d, if it has one, and goes on by the row of that element.
    #[cycle(chain)]
    fn diagonal_step(&self, d: usize, so_far: &mut Progress)
        requires diagonal { d < self.now.map.now.n }
        requires state { State (layout self.now) (lost self.now) so_far.old.built so_far.old.plan.steps so_far.old.plan.count }
        ensures { Stepped (layout self.now) (lost self.now) (diagonal d) so_far.old.built so_far.new.built so_far.new.plan.steps so_far.new.plan.count }
    {
        let Some((h, l)) = self.lone_on_diagonal(&so_far.built, d) else {
            return;
        };
        so_far.built[h][l] = true;
        so_far.plan.push(Kind::ByDiagonal, h, l);
        self.row_step(h, so_far);
    }

    // Follows the chains that start at a row, then those that start at a diagonal.
    fn sweep(&self, so_far: &mut Progress)
        requires { State (layout self.now) (lost self.now) so_far.old.built so_far.old.plan.steps so_far.old.plan.count }
        ensures { Swept (layout self.now) (lost self.now) so_far.new.built so_far.new.plan.steps so_far.new.plan.count self.now.map.now.r self.now.map.now.n }
    {
        for i in 0..self.map.r {
            self.row_step(i, so_far);
        }
        for d in 0..self.map.n {
            self.diagonal_step(d, so_far);
        }
    }

    // The steps for the lost U, each by its diagonal.
    fn build_v(&self, plan: &mut Plan)
        requires { plan.old.count ≤ 64 }
        ensures { BuiltV self.now.map.now.n self.now.map.now.r self.now.a self.now.b plan.old.steps plan.old.count plan.new.steps plan.new.count }
    {
        if self.a == self.map.n {
            return;
        }
        plan.push(Kind::U, self.map.r, self.a);
        if self.b == self.map.n || self.a == self.b {
            return;
        }
        plan.push(Kind::U, self.map.r, self.b);
    }

    // The steps for the H, each by its row, where strip n is lost.
    fn build_h(&self, plan: &mut Plan)
        requires { self.now.map.now.n ≤ self.now.b → plan.old.count + self.now.map.now.r ≤ 66 }
        ensures { BuiltH self.now.map.now.n self.now.map.now.r self.now.b plan.old.steps plan.old.count plan.new.steps plan.new.count }
    {
        if self.b < self.map.n {
            return;
        }
        for h in 0..self.map.r {
            plan.push(Kind::H, h, self.map.n);
        }
    }
}

// Follows every chain of the lost strips a and b, where a = b if one is lost, and writes the steps down.
// Where they build all lost data, a step for every lost U and H follows.
pub fn walk(map: &Map, a: usize, b: usize) -> Walked
    requires { (a ≤ b) × (b ≤ map.now.n) }
    ensures { Walk (drawn_by map.now) (pair a b) (written result.plan.steps) result.plan.count result.whole }
{
    let lost = Lost { map, a, b };
    let mut so_far = Progress {
        built: [[false; 32]; 32],
        plan: Plan::new(),
    };
    lost.sweep(&mut so_far);
    if !lost.strip_built(&so_far.built, a) || !lost.strip_built(&so_far.built, b) {
        return Walked {
            plan: so_far.plan,
            whole: false,
        };
    }
    lost.build_v(&mut so_far.plan);
    lost.build_h(&mut so_far.plan);
    Walked {
        plan: so_far.plan,
        whole: true,
    }
}
