// The operations that a case may name, by what they take: words, points, a matrix.
ghost use Rattle.std.specs.Prelude.{◌≡◌, ◌<◌, ◌≤◌};
ghost use Rattle.replay.specs.Operations.{number_of, inputs_of, count_of, Counts};

// One word.
#[derive(Clone, Copy)]
pub enum WordStep {
    ValueBits,
    ToI32,
    ToShort,
    VertexValue,
    Sqrt,
    OfCount,
    OrderKey,
    Abs,
}

// Two words.
#[derive(Clone, Copy)]
pub enum PairStep {
    Relate,
    CmpF32,
    KeyOrder,
    VminWord,
    VmaxWord,
    MinNumber,
    MaxNumber,
    Vmin,
    Vmax,
}

// One point.
#[derive(Clone, Copy)]
pub enum PointStep {
    Length,
    Norm,
    Neg,
    Abs,
}

// Two points.
#[derive(Clone, Copy)]
pub enum PointsStep {
    Dot,
    Cross,
    CmpVec3,
    Add,
    Sub,
    Vmul,
    Vdiv,
    Vmin,
    Vmax,
}

// A point and a word.
#[derive(Clone, Copy)]
pub enum FactorStep {
    Scale,
    VaddF,
}

// A matrix and a point.
#[derive(Clone, Copy)]
pub enum TransformStep {
    Point,
    Vector,
}

#[derive(Clone, Copy)]
pub enum Operation {
    Word(WordStep),
    Pair(PairStep),
    Point(PointStep),
    Points(PointsStep),
    Factor(FactorStep),
    Transform(TransformStep),
    TransformBox,
}

// The operation that has the number. `TryFrom` would be no plainer: the parser has refused all other numbers, and each caller would meet an Err that can't come.
pub fn of_number(n: u32) -> Operation
    requires { (1 ≤ n) × (n ≤ 35) }
    ensures { n ≡ number_of result }
{
    match n {
        0x01 => Operation::Word(WordStep::ValueBits),
        0x02 => Operation::Pair(PairStep::Relate),
        0x03 => Operation::Pair(PairStep::CmpF32),
        0x04 => Operation::Pair(PairStep::KeyOrder),
        0x05 => Operation::Pair(PairStep::VminWord),
        0x06 => Operation::Pair(PairStep::VmaxWord),
        0x07 => Operation::Pair(PairStep::MinNumber),
        0x08 => Operation::Pair(PairStep::MaxNumber),
        0x09 => Operation::Word(WordStep::ToI32),
        0x0a => Operation::Word(WordStep::ToShort),
        0x0b => Operation::Word(WordStep::VertexValue),
        0x0c => Operation::Word(WordStep::Sqrt),
        0x0d => Operation::Word(WordStep::OfCount),
        0x0e => Operation::Point(PointStep::Length),
        0x0f => Operation::Point(PointStep::Norm),
        0x10 => Operation::Points(PointsStep::Dot),
        0x11 => Operation::Points(PointsStep::Cross),
        0x12 => Operation::Points(PointsStep::CmpVec3),
        0x13 => Operation::Transform(TransformStep::Point),
        0x14 => Operation::Transform(TransformStep::Vector),
        0x15 => Operation::TransformBox,
        0x16 => Operation::Word(WordStep::OrderKey),
        0x17 => Operation::Word(WordStep::Abs),
        0x18 => Operation::Pair(PairStep::Vmin),
        0x19 => Operation::Pair(PairStep::Vmax),
        0x1a => Operation::Points(PointsStep::Add),
        0x1b => Operation::Points(PointsStep::Sub),
        0x1c => Operation::Points(PointsStep::Vmul),
        0x1d => Operation::Points(PointsStep::Vdiv),
        0x1e => Operation::Points(PointsStep::Vmin),
        0x1f => Operation::Points(PointsStep::Vmax),
        0x20 => Operation::Point(PointStep::Neg),
        0x21 => Operation::Point(PointStep::Abs),
        0x22 => Operation::Factor(FactorStep::Scale),
        _ => Operation::Factor(FactorStep::VaddF),
    }
}

// How many words the operation of a number takes. Number 0 has none. A table by number: a `match` on the operation would be no plainer, with an arm for each step that differs.
const INPUTS: [usize; 36] = [
    0, 1, 2, 2, 2, 2, 2, 2, 2, 1, 1, 1, 1, 1, 3, 3, 6, 6, 6, 19, 19, 22, 1, 1, 2, 2, 6, 6, 6, 6, 6,
    6, 3, 3, 4, 4,
];

pub fn inputs(n: u32) -> usize
    requires { n < 36 }
    ensures { Counts inputs_of n result }
{
    INPUTS[n as usize]
}

// How many words it takes and gives.
const COUNTS: [usize; 36] = [
    0, 2, 3, 3, 3, 3, 3, 3, 3, 2, 2, 2, 2, 2, 4, 6, 7, 9, 7, 23, 22, 28, 2, 2, 3, 3, 9, 9, 9, 9, 9,
    9, 6, 6, 7, 7,
];

pub fn count(n: u32) -> usize
    requires { n < 36 }
    ensures counts { Counts count_of n result }
    ensures upper_bound { result ≤ 28 }
{
    COUNTS[n as usize]
}
