// From correlations to the values of filters, all orders in one run.
ghost use Rattle.std.specs.Prelude.{◌≡◌, ℕ, ◌+◌, ◌-◌, ◌*◌, ◌^◌, ◌<◌, ◌≤◌, pos, ◌*ℤ◌, ◌≤ℤ◌, nat_abs, nat_lt, int_lt, ◌||◌, true, false, length, map, get_or, take};
ghost use Rattle.std.specs.List.{list_any};
ghost use Rattle.level_spec.specs.Recursion.{whole, left_over as left_over_of, reflection, moved as moved_of, begin, step as step_of, fallen as fallen_of, after, solution};
ghost use Rattle.level_spec.specs.Rows.{first_row, next_row, rows as rows_of, row_solution};
ghost use Rattle.level_spec.specs.Laws.{AreCorrelations};
ghost use Rattle.level_spec.specs.Picks.{orders};
ghost use Rattle.filter_analyser.specs.Run.{padded};

use filter_refiner::Rows;
use std::marker::Model;

// 1 with 24 fraction bits.
const ONE: i64 = 16_777_216;

/// The values of a filter of an order from 1 to 128, with 24 fraction bits, and zeros behind them.
pub fn solve_filter(lags: &[i64; 129], order: usize) -> [i64; 128]
    requires correlations { AreCorrelations lags.now }
    requires least { 1 ≤ order }
    requires most { order ≤ 128 }
    ensures { result ≡ padded (solution lags.now order) }
{
    let mut run = Run::begin(lags);
    run.advance(lags, 0, order);
    run.padded()
}

/// The values of the filters of orders 16, 32, 64 and 128, as `solve_filter` answers them.
pub fn solve_all(lags: &[i64; 129]) -> [[i64; 128]; 4]
    requires { AreCorrelations lags.now }
    ensures { result ≡ map (λ order. padded (solution lags.now order)) orders }
{
    let mut run = Run::begin(lags);
    let mut solutions = [[0; 128]; 4];
    run.advance(lags, 0, 16);
    solutions[0] = run.padded();
    run.advance(lags, 16, 32);
    solutions[1] = run.padded();
    run.advance(lags, 32, 64);
    solutions[2] = run.padded();
    run.advance(lags, 64, 128);
    solutions[3] = run.padded();
    solutions
}

/// The rows of the recursion with a ridge, and its values behind the last step, with zeros behind them.
pub fn keep_rows(lags: &[i64; 129]) -> (Rows, [i64; 128])
    requires { AreCorrelations lags.now }
    ensures rows { result.0 ≡ rows_of lags.now 128 }
    ensures solution { result.1 ≡ row_solution lags.now 128 }
{
    let mut rows = Rows::new();
    let mut run = Run::begin_with_ridge(lags);
    for _step in 0..128usize {
        rows.push(run.error, &run.values[..run.steps]);
        if !run.row_step(lags) {
            break;
        }
    }
    (rows, run.padded())
}

/// The state of the recursion after some steps, and room for the values of the next one.
#[derive(Drop)]
struct Run {
    error: i64,
    values: [i64; 128],
    next: [i64; 128],
    steps: usize,
}

impl Model for Run {
    ghost use Rattle.std.specs.Prelude.{◌≤◌, take};
    ghost use Rattle.level_spec.specs.Recursion.{State};
    ghost use Rattle.filter_analyser.specs.Run.{IsRun};

    ghost Value = { State };

    ghost view = { λ r. record { error = r.error; values = take r.steps r.values } };

    ghost invariant = { λ r. (r.steps ≤ 128) × IsRun (record { error = r.error; values = take r.steps r.values }) };
}

impl Run {
    fn begin(lags: &[i64; 129]) -> Run
        requires { AreCorrelations lags.now }
        ensures { result ≡ begin lags.now }
    {
        Run {
            error: lags[0] * ONE,
            values: [0; 128],
            next: [0; 128],
            steps: 0,
        }
    }

    // Goes on from the state after so many steps to that after more.
    fn advance(&mut self, lags: &[i64; 129], from: usize, to: usize)
        requires correlations { AreCorrelations lags.now }
        requires less { from ≤ to }
        requires most { to ≤ 128 }
        requires at { self.old ≡ after lags.now from }
        ensures { self.new ≡ after lags.now to }
    {
        for _step in from..to {
            if !self.step(lags) {
                break;
            }
        }
    }

    // One step, and whether it was made. Where it stops, all is as it was.
    fn step(&mut self, lags: &[i64; 129]) -> bool
        requires correlations { AreCorrelations lags.now }
        requires room { length self.old.values < 128 }
        ensures state { self.new ≡ step_of lags.now self.old }
        ensures stop { result ≡ false → self.new ≡ self.old }
    {
        let place = self.steps + 1;
        let values = &self.values[..self.steps];
        let next_value = next_value(lags, values, self.error);
        if next_value.unsigned_abs() >= 1 << 24 {
            return false;
        }
        let reflection = next_value as i64;
        move_values(&mut self.next, values, reflection);
        if has_large(&self.next[..place]) {
            return false;
        }
        self.error = fallen(self.error, reflection);
        copy_first(&mut self.values, &self.next, place);
        self.steps = place;
        true
    }

    // The first row of the recursion with a ridge.
    fn begin_with_ridge(lags: &[i64; 129]) -> Run
        requires { AreCorrelations lags.now }
        ensures { result ≡ first_row lags.now }
    {
        Run {
            error: lags[0] * (ONE + 64),
            values: [0; 128],
            next: [0; 128],
            steps: 0,
        }
    }

    // One step of the recursion with a ridge, and whether it was made. Where it stops, all is as it was.
    fn row_step(&mut self, lags: &[i64; 129]) -> bool
        requires correlations { AreCorrelations lags.now }
        requires room { length self.old.values < 128 }
        ensures state { self.new ≡ next_row lags.now self.old }
        ensures stop { result ≡ false → self.new ≡ self.old }
        ensures made { result ≡ true → length self.new.values ≡ length self.old.values + 1 }
    {
        let place = self.steps + 1;
        let values = &self.values[..self.steps];
        let added = next_value(lags, values, self.error);
        if added.unsigned_abs() >= 1 << 24 {
            return false;
        }
        let reflection = added as i64;
        move_values(&mut self.next, values, reflection);
        let error = fallen(self.error, reflection);
        if is_past(error, lags[0], &self.next[..place]) {
            return false;
        }
        self.error = error;
        copy_first(&mut self.values, &self.next, place);
        self.steps = place;
        true
    }

    // The values, and zeros behind them.
    fn padded(&self) -> [i64; 128]
        ensures { result ≡ padded self.now.values }
    {
        let mut all = [0; 128];
        for place in 0..self.steps {
            all[place] = self.values[place];
        }
        all
    }
}

fn product(a: i64, b: i64) -> i128
    ensures { result ≡ a *ℤ b }
{
    i128::from(a) * i128::from(b)
}

// A part of a number, at most the whole one, rounded down.
fn share(part: i64, number: i64) -> i64
    requires part { nat_abs part ≤ 2 ^ 24 }
    requires number { nat_abs number ≤ 2 ^ 45 }
    ensures share { result ≡ whole (part *ℤ number) }
    ensures most { nat_abs result ≤ nat_abs number }
{
    (product(part, number) >> 24) as i64
}

// What the values leave of a correlation.
fn left_over(lags: &[i64; 129], values: &[i64], place: usize) -> i128
    requires correlations { AreCorrelations lags.now }
    requires values { (k : ℕ) → nat_abs (get_or values.now k (pos 0)) ≤ 2 ^ 40 }
    requires place { place ≡ length values.now + 1 }
    requires most { place ≤ 128 }
    ensures left { result ≡ left_over_of lags.now values.now place }
    ensures most { nat_abs result ≤ 2 ^ 68 }
{
    let mut rest = product(lags[place], ONE);
    for j in 1..place {
        rest -= product(values[j - 1], lags[place - j]);
    }
    rest
}

// The value that a step adds, by which it moves the others.
fn next_value(lags: &[i64; 129], values: &[i64], error: i64) -> i128
    requires correlations { AreCorrelations lags.now }
    requires values { (k : ℕ) → nat_abs (get_or values.now k (pos 0)) ≤ 2 ^ 40 }
    requires few { length values.now < 128 }
    requires error { pos 1 ≤ℤ error }
    ensures { result ≡ reflection lags.now (record { error = error; values = values.now }) (length values.now + 1) }
{
    let rest = left_over(lags, values, values.len() + 1);
    (rest * i128::from(ONE)).div_euclid(i128::from(error))
}

// The values, moved by the next one, and that one, in front of an array.
fn move_values(next: &mut [i64; 128], values: &[i64], reflection: i64)
    requires values { (k : ℕ) → nat_abs (get_or values.now k (pos 0)) ≤ 2 ^ 40 }
    requires few { length values.now < 128 }
    requires reflection { nat_abs reflection < 2 ^ 24 }
    ensures moved { take (length values.now + 1) next.new ≡ moved_of values.now reflection (length values.now + 1) }
    ensures long { length next.new ≡ 128 }
{
    fill_moved(&mut next[..values.len() + 1], values, reflection);
}

// Copies the first values.
fn copy_first(values: &mut [i64; 128], next: &[i64; 128], count: usize)
    requires { count ≤ 128 }
    ensures first { take count values.new ≡ take count next.now }
    ensures long { length values.new ≡ 128 }
{
    values[..count].copy_from_slice(&next[..count]);
}

fn fill_moved(next: &mut [i64], values: &[i64], reflection: i64)
    requires values { (k : ℕ) → nat_abs (get_or values.now k (pos 0)) ≤ 2 ^ 40 }
    requires reflection { nat_abs reflection < 2 ^ 24 }
    requires long { length next.old ≡ length values.now + 1 }
    ensures { next.new ≡ moved_of values.now reflection (length values.now + 1) }
{
    let place = next.len();
    for j in 1..place {
        let value = values[j - 1] - share(reflection, values[place - j - 1]);
        next[j - 1] = value;
    }
    next[place - 1] = reflection;
}

// Whether less is left than R(0), or a value has more than 32 bits.
fn is_past(error: i64, r0: i64, values: &[i64]) -> bool
    requires error { nat_abs error ≤ 2 ^ 60 }
    requires r0 { nat_abs r0 ≤ 2 ^ 60 }
    ensures { result ≡ (int_lt error r0 || list_any (λ b. nat_lt (2 ^ 32) (nat_abs b)) values.now) }
{
    error < r0 || has_greater(values)
}

// Whether a value has more than 32 bits.
fn has_greater(values: &[i64]) -> bool
    ensures { result ≡ list_any (λ b. nat_lt (2 ^ 32) (nat_abs b)) values.now }
{
    values.iter().any(|value| value.unsigned_abs() > 1 << 32)
}

// Whether a value has more than 40 bits.
fn has_large(values: &[i64]) -> bool
    ensures { result ≡ list_any (λ b. nat_lt (2 ^ 40) (nat_abs b)) values.now }
{
    values.iter().any(|value| value.unsigned_abs() > 1 << 40)
}

// The error behind a step.
fn fallen(error: i64, reflection: i64) -> i64
    requires least { pos 1 ≤ℤ error }
    requires most { error ≤ℤ pos (2 ^ 45) }
    requires reflection { nat_abs reflection < 2 ^ 24 }
    ensures fallen { result ≡ fallen_of error reflection }
    ensures least { pos 1 ≤ℤ result }
    ensures most { result ≤ℤ error }
{
    let square = share(reflection, reflection);
    error - share(square, error)
}
