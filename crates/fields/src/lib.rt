// The gases at the points, and what is said of the air there.
#![tactic(auto)]

ghost use Rattle.std.specs.Prelude.{◌≡◌, ◌+◌, ◌<◌, ◌≤◌, length, get_or, set};
ghost use Rattle.std.specs.Float.{nan};
ghost use Rattle.common.specs.Lists.{stretch};
ghost use Rattle.airs.specs.Airs.{number_of, ratio_or};
ghost use Rattle.fields.specs.Fields.{field, air_at};
ghost use Rattle.fields.specs.Working.{Evaluated, Runs, Tells, two_more, air_here, air_from, told_from, told_of};

use airs::{Air, Gases, air_of, number_of};

// As many points as are worked on at a time: enough for the compiler to take several a turn, and few for the stack.
const RUN: usize = 32;

// Adds to the sums at some points what two nodes count for there, one after the other: so each sum is loaded and stored once for both.
fn add_two(
    count: usize,
    values: &[f64],
    at: usize,
    next: usize,
    first: f64,
    second: f64,
    gas: &mut [f64],
)
    requires { (at + count ≤ length values.now) × (next + count ≤ length values.now) × (count ≤ length gas.old) }
    ensures { gas.new ≡
        stretch 0 count (two_more values.now at next first second gas.old) gas.old }
{
    for i in 0..count {
        gas[i] = gas[i] + values[at + i] * first + values[next + i] * second;
    }
}

// One gas at some points, from `from` on: the sums of the nodes' columns of values, each times the node's entry.
fn gas_at(
    nodes: usize,
    rows: usize,
    from: usize,
    count: usize,
    values: &[f64],
    expansion: &[f64],
    gas: &mut [f64],
)
    requires { Runs nodes rows from count values.now expansion.now gas.old }
    ensures { gas.new ≡
        stretch 0 count (λ i. field nodes rows values.now expansion.now (from + i)) gas.old }
{
    common::fill_with(0.0, count, 0, gas);
    let mut node = 0;
    let mut at = from;
    while node + 1 < nodes {
        let next = at + rows;
        add_two(
            count,
            values,
            at,
            next,
            expansion[node],
            expansion[node + 1],
            gas,
        );
        at = next + rows;
        node += 2;
    }
    if node < nodes {
        common::add_scaled(count, values, at, expansion[node], 0, gas);
    }
}

// Tells the air at one point; where it has no ratio, that place stays as it is.
fn put_air(air: Air, point: usize, answers: &mut [u8], ratios: &mut [f64])
    requires { (point < length answers.old) × (point < length ratios.old) }
    ensures { (answers.new ≡ set answers.old point (number_of air)) ×
        (ratios.new ≡ set ratios.old point (ratio_or air (get_or ratios.old point nan))) }
{
    answers[point] = number_of(air);
    if let Air::Ratio(ratio) = air {
        ratios[point] = ratio;
    }
}

// Tells the air at so many points, from `from` on.
fn tell_air(
    floor: f64,
    from: usize,
    count: usize,
    carbon_monoxide: &[f64],
    nitrogen: &[f64],
    oxygen: &[f64],
    answers: &mut [u8],
    ratios: &mut [f64],
)
    requires { Tells from count (length carbon_monoxide.now) (length nitrogen.now) (length oxygen.now)
        (length answers.old) (length ratios.old) }
    ensures { (answers.new, ratios.new) ≡ told_from from count
        (air_here floor carbon_monoxide.now nitrogen.now oxygen.now)
        answers.old ratios.old }
{
    for i in 0..count {
        let gases = Gases {
            carbon_monoxide: carbon_monoxide[i],
            nitrogen: nitrogen[i],
            oxygen: oxygen[i],
        };
        put_air(air_of(floor, gases), from + i, answers, ratios);
    }
}

// A run of points: the three gases there, and what is told of the air.
fn fill_run(
    nodes: usize,
    rows: usize,
    floor: f64,
    from: usize,
    count: usize,
    values: &[f64],
    carbon_monoxide: &[f64],
    nitrogen: &[f64],
    oxygen: &[f64],
    answers: &mut [u8],
    ratios: &mut [f64],
)
    requires { Evaluated nodes rows values.now carbon_monoxide.now nitrogen.now oxygen.now × (count ≤ 32) ×
        (from + count ≤ rows) × (length answers.old ≡ rows) × (length ratios.old ≡ rows) }
    ensures { (answers.new, ratios.new) ≡ told_from from count (air_from from
        (air_at nodes rows floor values.now carbon_monoxide.now nitrogen.now oxygen.now))
        answers.old ratios.old }
{
    let mut co = [0.0; RUN];
    let mut n2 = [0.0; RUN];
    let mut o2 = [0.0; RUN];
    gas_at(nodes, rows, from, count, values, carbon_monoxide, &mut co);
    gas_at(nodes, rows, from, count, values, nitrogen, &mut n2);
    gas_at(nodes, rows, from, count, values, oxygen, &mut o2);
    tell_air(floor, from, count, &co, &n2, &o2, answers, ratios);
}

// All points, run by run.
pub fn fill_answers(
    nodes: usize,
    rows: usize,
    floor: f64,
    values: &[f64],
    carbon_monoxide: &[f64],
    nitrogen: &[f64],
    oxygen: &[f64],
    answers: &mut [u8],
    ratios: &mut [f64],
)
    requires { Evaluated nodes rows values.now carbon_monoxide.now nitrogen.now oxygen.now ×
        (length answers.old ≡ rows) × (length ratios.old ≡ rows) }
    ensures { (answers.new, ratios.new) ≡ told_of rows
        (air_at nodes rows floor values.now carbon_monoxide.now nitrogen.now oxygen.now)
        ratios.old }
{
    let mut point = 0;
    while point < rows {
        let count = RUN.min(rows - point);
        fill_run(
            nodes,
            rows,
            floor,
            point,
            count,
            values,
            carbon_monoxide,
            nitrogen,
            oxygen,
            answers,
            ratios,
        );
        point += count;
    }
}
