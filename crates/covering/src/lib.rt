// Runs of frames in the order of their first frames: each is put in its place as it comes, and one pass over them counts each frame once.
// They stand side by side in 128 places around place 64. The side with fewer runs makes room for the next one, so that runs which come
// in rising or in falling order move none.
#![tactic(auto)]

ghost use Rattle.std.specs.Prelude.{◌≡◌, ◌+◌, ◌≤◌, ◌<◌, [], length};
ghost use Rattle.rules.specs.Board.{covered_by};
ghost use Rattle.covering.specs.Runs.{first_of, end_of, rows_in, Ordered, CoversOneMore};
ghost use Rattle.covering.specs.Moving.{up_from, down_from, Lower, Higher, Ends, Put};

use std::marker::Model;

// So many runs, count of them, from the place low on. A clause sees the rows of the board that they would be.
#[derive(Clone, Drop)]
pub struct Runs {
    places: [u64; 128],
    low: usize,
    count: usize,
}

impl Model for Runs {
    ghost use Rattle.std.specs.Prelude.{List};
    ghost use Rattle.rules.specs.declared.Row.{Row};
    ghost use Rattle.covering.specs.Runs.{rows_in, Ordered};

    ghost Value = { List Row };

    ghost view = { λ runs. rows_in runs.places runs.low runs.count };

    ghost invariant = { λ runs. Ordered runs.places runs.low runs.count };
}

// Runs with their places to be seen, for a caller that keeps the places itself.
#[derive(Clone, Copy)]
pub struct Placed {
    pub places: [u64; 128],
    pub low: usize,
    pub count: usize,
}

impl Runs {
    pub fn none() -> Runs
        ensures { result ≡ [] }
    {
        Runs {
            places: [0; 128],
            low: 64,
            count: 0,
        }
    }

    // Places in order are runs, whoever put them there.
    pub fn placed(places: [u64; 128], low: usize, count: usize) -> Runs
        requires { Ordered places low count }
        ensures same { result ≡ rows_in places low count }
        ensures all { length result ≡ count }
    {
        Runs { places, low, count }
    }

    // The places again: a clause sees the rows alone, so a caller that keeps places is told here what holds of them.
    pub fn in_places(&self) -> Placed
        ensures ordered { Ordered result.places result.low result.count }
        ensures same { rows_in result.places result.low result.count ≡ self.now }
        ensures all { result.count ≡ length self.now }
    {
        Placed {
            places: self.places,
            low: self.low,
            count: self.count,
        }
    }

    // Puts a run in its place among those that are there. At most half of them move.
    pub fn put(&mut self, first: u32, end: u32)
        requires has_room { length self.old < 64 }
        ensures one_more { length self.new ≡ length self.old + 1 }
        ensures covers_it { CoversOneMore self.old first end self.new }
    {
        let run = u64::from(first) * 4294967296 + u64::from(end);
        let is_first = self.count == 0;
        if is_first {
            self.places[self.low] = run;
        } else if run < self.places[self.low + self.count / 2] {
            put_below(&mut self.places, self.low, run);
            self.low -= 1;
        } else {
            put_above(&mut self.places, self.low + self.count, run);
        }
        self.count += 1;
    }

    // The frames that the runs cover. Each run adds those of its frames that lie past what the runs before it reached.
    pub fn covered(&self) -> u64
        ensures { result ≡ covered_by self.now }
    {
        let mut covered: u64 = 0;
        let mut reached: u32 = 0;
        for run in &self.places[self.low..self.low + self.count] {
            let end = end_of(*run);
            let from = reached.max(first_of(*run));
            covered += u64::from(end.saturating_sub(from));
            reached = reached.max(end);
        }
        covered
    }
}

// ---- room is made in the places

// Each run from low on that is lower moves down by one place. A run that is not lower must stand there, so that they end.
fn put_below(places: &mut [u64; 128], low: usize, run: u64)
    requires is_whole { length places.old ≡ 128 }
    requires has_place_below { 1 ≤ low }
    requires ends { Ends (up_from low) (Lower run) places.old }
    ensures { Put (up_from low) (Lower run) places.old run places.new }
{
    let mut at = low;
    // no range is known beforehand: one pass looks and moves, and stops where the run belongs
    while places[at] < run {
        places[at - 1] = places[at];
        at += 1;
    }
    places[at - 1] = run;
}

// The same from the other side: each run before high that is higher moves up.
fn put_above(places: &mut [u64; 128], high: usize, run: u64)
    requires is_whole { length places.old ≡ 128 }
    requires has_place { high < 128 }
    requires ends { Ends (down_from high) (Higher run) places.old }
    ensures { Put (down_from high) (Higher run) places.old run places.new }
{
    let mut at = high;
    while run < places[at - 1] {
        places[at] = places[at - 1];
        at -= 1;
    }
    places[at] = run;
}

// ---- a run in one word, its first frame above its end, so that one comparison orders two runs

fn first_of(run: u64) -> u32
    ensures { result ≡ first_of run }
{
    (run / 4294967296) as u32
}

fn end_of(run: u64) -> u32
    ensures { result ≡ end_of run }
{
    (run % 4294967296) as u32
}
