// What the C interface answers of polygons: a polygon as a struct, and numbers and structs for the cases of enums.
#![tactic(auto)]

ghost use Rattle.std.specs.Prelude.{◌≡◌};
ghost use Rattle.polygon.specs.Answers.{read_of, write_number, polygons_number};
ghost use Rattle.polygon_answers.specs.Geometry.{triangle_struct, round_struct, box_struct, struct_of, triangle_in, box_in, polygon_in};
ghost use Rattle.polygon_answers.specs.Geometry.{unread, read_answer, WroteStruct, unboxed, boxed, box_answer};
ghost use Rattle.polygon_answers.specs.Geometry.{edges_work_len, materials_with, materials_answer};

use materials::building::MaterialsRefusal;
use math::words3::Words3;
use polygon::halves::{half_of, short_of};
use polygon::writing::word_or;
use polygon::{Polygon, PolygonsRefusal, ReadRefusal, WriteRefusal};
use polygon_boxes::PolygonBox;

// A polygon by its kind, 0 to 4. `word` is the area or the radius, of any bits; a box's is 0. The halves, of which the unused are 0:
// a triangle's three vertices and three links, a sphere's index, a capsule's and a cylinder's two, a box's four.
#[repr(C)]
#[derive(Clone, Copy)]
pub struct PolygonC {
    pub kind: u32,
    pub word: u32,
    pub h0: u16,
    pub h1: u16,
    pub h2: u16,
    pub h3: u16,
    pub h4: u16,
    pub h5: u16,
}

// ---- a polygon as a struct

fn triangle_struct(area: u32, v1: u16, v2: u16, v3: u16, e1: i16, e2: i16, e3: i16) -> PolygonC
    ensures { result ≡ triangle_struct area v1 v2 v3 e1 e2 e3 }
{
    PolygonC {
        kind: 0,
        word: area,
        h0: v1,
        h1: v2,
        h2: v3,
        h3: half_of(e1),
        h4: half_of(e2),
        h5: half_of(e3),
    }
}

// A sphere, a capsule or a cylinder.
fn round_struct(kind: u32, radius: u32, i1: u16, i2: u16) -> PolygonC
    ensures { result ≡ round_struct kind radius i1 i2 }
{
    PolygonC {
        kind: kind,
        word: radius,
        h0: i1,
        h1: i2,
        h2: 0,
        h3: 0,
        h4: 0,
        h5: 0,
    }
}

fn box_struct(i1: i16, i2: i16, i3: i16, i4: i16) -> PolygonC
    ensures { result ≡ box_struct i1 i2 i3 i4 }
{
    PolygonC {
        kind: 3,
        word: 0,
        h0: half_of(i1),
        h1: half_of(i2),
        h2: half_of(i3),
        h3: half_of(i4),
        h4: 0,
        h5: 0,
    }
}

fn struct_of(p: Polygon) -> PolygonC
    ensures { result ≡ struct_of p }
{
    match p {
        Polygon::Triangle {
            area,
            nan,
            v1,
            v2,
            v3,
            e1,
            e2,
            e3,
        } => triangle_struct(word_or(area, nan), v1, v2, v3, e1, e2, e3),
        Polygon::Sphere { index, radius, nan } => round_struct(1, word_or(radius, nan), index, 0),
        Polygon::Capsule {
            i1,
            i2,
            radius,
            nan,
        } => round_struct(2, word_or(radius, nan), i1, i2),
        Polygon::Box { i1, i2, i3, i4 } => box_struct(i1, i2, i3, i4),
        Polygon::Cylinder {
            i1,
            i2,
            radius,
            nan,
        } => round_struct(4, word_or(radius, nan), i1, i2),
    }
}

// ---- the polygon of a struct

fn triangle_in(c: PolygonC) -> Polygon
    ensures { result ≡ triangle_in c }
{
    Polygon::Triangle {
        area: float32::words::value(c.word),
        nan: c.word,
        v1: c.h0,
        v2: c.h1,
        v3: c.h2,
        e1: short_of(c.h3),
        e2: short_of(c.h4),
        e3: short_of(c.h5),
    }
}

fn box_in(c: PolygonC) -> Polygon
    ensures { result ≡ box_in c }
{
    Polygon::Box {
        i1: short_of(c.h0),
        i2: short_of(c.h1),
        i3: short_of(c.h2),
        i4: short_of(c.h3),
    }
}

// Kind 4 is the last.
fn polygon_in(c: PolygonC) -> Polygon
    ensures { result ≡ polygon_in c }
{
    let kind = c.kind;
    if kind == 0 {
        return triangle_in(c);
    }
    if kind == 3 {
        return box_in(c);
    }
    let radius = float32::words::value(c.word);
    if kind == 1 {
        return Polygon::Sphere {
            index: c.h0,
            radius: radius,
            nan: c.word,
        };
    }
    if kind == 2 {
        return Polygon::Capsule {
            i1: c.h0,
            i2: c.h1,
            radius: radius,
            nan: c.word,
        };
    }
    Polygon::Cylinder {
        i1: c.h0,
        i2: c.h1,
        radius: radius,
        nan: c.word,
    }
}

// ---- reading

// What reading answers: 01's number, 0 where it is not refused, and the polygon, 0 throughout where it is.
#[repr(C)]
#[derive(Clone, Copy)]
pub struct ReadAnswer {
    pub refusal: u32,
    pub polygon: PolygonC,
}

fn unread(number: u32) -> ReadAnswer
    ensures { result ≡ unread number }
{
    ReadAnswer {
        refusal: number,
        polygon: round_struct(0, 0, 0, 0),
    }
}

fn found(p: Polygon) -> ReadAnswer
    ensures { result ≡ record { refusal = 0; polygon = struct_of p } }
{
    ReadAnswer {
        refusal: 0,
        polygon: struct_of(p),
    }
}

fn read_answer(r: Result<Polygon, ReadRefusal>) -> ReadAnswer
    ensures { result ≡ read_answer r }
{
    match r {
        Ok(p) => found(p),
        Err(why) => unread(why as u32),
    }
}

// The polygon of a record's first 16 bytes.
pub fn read_struct(bytes: &[u8]) -> ReadAnswer
    ensures { result ≡ read_answer (read_of bytes.now) }
{
    read_answer(polygon::reading::read(bytes))
}

// ---- writing

fn write_number(w: Result<(), WriteRefusal>) -> u32
    ensures { result ≡ write_number w }
{
    match w {
        Ok(()) => 0,
        Err(why) => why as u32,
    }
}

// The 16 bytes of a polygon; 01's number, 0 where it is not refused.
pub fn write_struct(out: &mut [u8], polygon: PolygonC) -> u32
    ensures { WroteStruct polygon out.old out.new result }
{
    if polygon.kind > 4 {
        return 6;
    }
    write_number(polygon::writing::write(out, polygon_in(polygon)))
}

// ---- the box

// What a polygon's box answers: 01's number, 0 where it is not refused, and the box in words, 0 where it is.
#[repr(C)]
#[derive(Clone, Copy)]
pub struct BoxAnswer {
    pub refusal: u32,
    pub min: Words3,
    pub max: Words3,
}

fn unboxed(number: u32) -> BoxAnswer
    ensures { result ≡ unboxed number }
{
    let zero = Words3 { x: 0, y: 0, z: 0 };
    BoxAnswer {
        refusal: number,
        min: zero,
        max: zero,
    }
}

fn boxed(b: PolygonBox) -> BoxAnswer
    ensures { result ≡ boxed b }
{
    let min = b.min;
    let max = b.max;
    BoxAnswer {
        refusal: 0,
        min: min,
        max: max,
    }
}

// The box of a polygon over its vertices, three words each.
pub fn struct_box(polygon: PolygonC, vertices: &[u32]) -> BoxAnswer
    ensures { result ≡ box_answer polygon vertices.now }
{
    if polygon.kind > 4 {
        return unboxed(6);
    }
    boxed(polygon_boxes::bbox(polygon_in(polygon), vertices))
}

// ---- the boxes of a list, and the links

pub fn polygons_number(r: Result<(), PolygonsRefusal>) -> u32
    ensures { result ≡ polygons_number r }
{
    match r {
        Ok(()) => 0,
        Err(refusal) => refusal as u32,
    }
}

// The words that linking n polygons works in, all parts together: 3n for each of the five.
pub fn edges_work_len(polygons: u32) -> u64
    ensures { result ≡ edges_work_len polygons }
{
    15 * (polygons as u64)
}

// ---- materials

// What building a list of materials answers: 01's number, 0 where it is not refused, and how many it has, 0 where it is.
#[repr(C)]
#[derive(Clone, Copy)]
pub struct MaterialsAnswer {
    pub refusal: u32,
    pub count: usize,
}

fn materials_with(number: u32, count: usize) -> MaterialsAnswer
    ensures { result ≡ materials_with number count }
{
    MaterialsAnswer {
        refusal: number,
        count: count,
    }
}

pub fn materials_answer(m: Result<usize, MaterialsRefusal>) -> MaterialsAnswer
    ensures { result ≡ materials_answer m }
{
    match m {
        Ok(count) => materials_with(0, count),
        Err(why) => materials_with(why as u32, 0),
    }
}
