// Each operation from words to words, with the proved functions in between.
ghost use Rattle.std.specs.Prelude.{◌≡◌, ◌+◌, ◌≤◌, length};
ghost use Rattle.replay.specs.Answers.{point_at, row_at, matrix_at, answer_of};
ghost use Rattle.replay.specs.Answers.{word_answer, pair_answer, point_answer, points_answer, factor_answer, transform_answer};
ghost use Rattle.replay.specs.Answers.{three as threeOf, four as fourOf, six as sixOf};
ghost use Rattle.replay.specs.Operations.{inputs_of};

use crate::operation::{
    FactorStep, Operation, PairStep, PointStep, PointsStep, TransformStep, WordStep,
};
use crate::words::{ordering, relation, signed, signed_short};
use float32::sorting::order_key;
use float32::words::{bits, value};
use math::aabb::Aabb;
use math::mat4::{Mat4, Vec4};
use math::vec3::Vec3;
use math::words3::Words3;

#[derive(Clone, Copy)]
pub enum Answer {
    One(u32),
    Three(u32, u32, u32),
    Four(u32, u32, u32, u32),
    Six(u32, u32, u32, u32, u32, u32),
}

fn of_word(step: WordStep, a: u32) -> u32
    ensures { result ≡ word_answer step a }
{
    let x = value(a);
    match step {
        WordStep::ValueBits => bits(x),
        WordStep::ToI32 => signed(float32::casts::to_i32(x)),
        WordStep::ToShort => signed_short(float32::casts::to_short(x)),
        WordStep::VertexValue => signed_short(float32::casts::vertex_value(x)),
        WordStep::Sqrt => bits(float32::root::sqrt(x)),
        WordStep::OfCount => bits(float32::counts::of_count((a % 65536) as u16)),
        WordStep::OrderKey => order_key(a),
        WordStep::Abs => bits(float32::signs::abs(x)),
    }
}

fn of_pair(step: PairStep, a: u32, b: u32) -> u32
    ensures { result ≡ pair_answer step a b }
{
    let x = value(a);
    let y = value(b);
    match step {
        PairStep::Relate => relation(float32::compare::relate(x, y)),
        PairStep::CmpF32 => ordering(float32::sorting::cmp_f32(x, y)),
        PairStep::KeyOrder => ordering(order_key(a).cmp(&order_key(b))),
        PairStep::VminWord => float32::extremes::vmin_word(a, b),
        PairStep::VmaxWord => float32::extremes::vmax_word(a, b),
        PairStep::MinNumber => bits(float32::extremes::min_number(x, y)),
        PairStep::MaxNumber => bits(float32::extremes::max_number(x, y)),
        PairStep::Vmin => bits(float32::extremes::vmin(x, y)),
        PairStep::Vmax => bits(float32::extremes::vmax(x, y)),
    }
}

// The point of three words.
fn point(words: &[u32], at: usize) -> Vec3
    requires { at + 3 ≤ length words.now }
    ensures { result ≡ point_at words.now at }
{
    math::words3::values(Words3 {
        x: words[at],
        y: words[at + 1],
        z: words[at + 2],
    })
}

fn row(words: &[u32], at: usize) -> Vec4
    requires { at + 4 ≤ length words.now }
    ensures { result ≡ row_at words.now at }
{
    let first = point(words, at);
    Vec4 {
        x: first.x,
        y: first.y,
        z: first.z,
        w: value(words[at + 3]),
    }
}

// The matrix of sixteen words, row after row.
fn matrix(words: &[u32], at: usize) -> Mat4
    requires { at + 16 ≤ length words.now }
    ensures { result ≡ matrix_at words.now at }
{
    Mat4 {
        row0: row(words, at),
        row1: row(words, at + 4),
        row2: row(words, at + 8),
        row3: row(words, at + 12),
    }
}

fn three(v: Vec3) -> Answer
    ensures { result ≡ threeOf v }
{
    Answer::Three(bits(v.x), bits(v.y), bits(v.z))
}

fn four(v: Vec4) -> Answer
    ensures { result ≡ fourOf v }
{
    Answer::Four(bits(v.x), bits(v.y), bits(v.z), bits(v.w))
}

fn six(b: Aabb) -> Answer
    ensures { result ≡ sixOf b }
{
    Answer::Six(
        bits(b.min.x),
        bits(b.min.y),
        bits(b.min.z),
        bits(b.max.x),
        bits(b.max.y),
        bits(b.max.z),
    )
}

fn of_point(step: PointStep, v: Vec3) -> Answer
    ensures { result ≡ point_answer step v }
{
    match step {
        PointStep::Length => Answer::One(bits(v.length())),
        PointStep::Norm => three(math::vec3::norm(v)),
        PointStep::Neg => three(v.neg()),
        PointStep::Abs => three(v.abs()),
    }
}

fn of_points(step: PointsStep, a: Vec3, b: Vec3) -> Answer
    ensures { result ≡ points_answer step a b }
{
    match step {
        PointsStep::Dot => Answer::One(bits(a.dot(b))),
        PointsStep::Cross => three(a.cross(b)),
        PointsStep::CmpVec3 => Answer::One(ordering(math::vec3::cmp_vec3(a, b))),
        PointsStep::Add => three(a.add(b)),
        PointsStep::Sub => three(a.sub(b)),
        PointsStep::Vmul => three(math::vec3::vmul(a, b)),
        PointsStep::Vdiv => three(math::vec3::vdiv(a, b)),
        PointsStep::Vmin => three(math::vec3::vmin(a, b)),
        PointsStep::Vmax => three(math::vec3::vmax(a, b)),
    }
}

fn of_factor(step: FactorStep, v: Vec3, k: f32) -> Answer
    ensures { result ≡ factor_answer step v k }
{
    match step {
        FactorStep::Scale => three(v.scale(k)),
        FactorStep::VaddF => three(math::vec3::vadd_f(v, k)),
    }
}

fn of_transform(step: TransformStep, m: Mat4, v: Vec3) -> Answer
    ensures { result ≡ transform_answer step m v }
{
    match step {
        TransformStep::Point => four(m.transform_point(v)),
        TransformStep::Vector => three(m.transform_vector(v)),
    }
}

fn of_box(words: &[u32]) -> Answer
    requires { 22 ≤ length words.now }
    ensures { result ≡ answer_of Operation.TransformBox words.now }
{
    let b = Aabb {
        min: point(words, 0),
        max: point(words, 3),
    };
    six(math::aabb::transform_box(b, matrix(words, 6)))
}

// What the operation gives for the words that it takes.
pub fn of(op: Operation, words: &[u32]) -> Answer
    requires { inputs_of op ≤ length words.now }
    ensures { result ≡ answer_of op words.now }
{
    match op {
        Operation::Word(step) => Answer::One(of_word(step, words[0])),
        Operation::Pair(step) => Answer::One(of_pair(step, words[0], words[1])),
        Operation::Point(step) => of_point(step, point(words, 0)),
        Operation::Points(step) => of_points(step, point(words, 0), point(words, 3)),
        Operation::Factor(step) => of_factor(step, point(words, 0), value(words[3])),
        Operation::Transform(step) => of_transform(step, matrix(words, 0), point(words, 16)),
        Operation::TransformBox => of_box(words),
    }
}
