// Polygons: five kinds by value, and their records of 16 bytes.
#![tactic(auto)]

pub mod halves;
pub mod reading;
pub mod writing;

// A polygon; its material is stored beside it. With a float goes the word that is written where both are a NaN, since an f32 keeps no bits of one.
#[derive(Clone, Copy)]
pub enum Polygon {
    Triangle {
        area: f32,
        nan: u32,
        v1: u16,
        v2: u16,
        v3: u16,
        e1: i16,
        e2: i16,
        e3: i16,
    },
    Sphere {
        index: u16,
        radius: f32,
        nan: u32,
    },
    Capsule {
        i1: u16,
        i2: u16,
        radius: f32,
        nan: u32,
    },
    Box {
        i1: i16,
        i2: i16,
        i3: i16,
        i4: i16,
    },
    Cylinder {
        i1: u16,
        i2: u16,
        radius: f32,
        nan: u32,
    },
}

// Why a record is not read, by the number that C is told.
#[derive(Clone, Copy)]
pub enum ReadRefusal {
    ShortRecord = 5,
    UnknownKind = 6,
}

// Why a record is not written, by the number that C is told.
#[derive(Clone, Copy)]
pub enum WriteRefusal {
    BufferTooShort = 2,
}

// Why an operation on an array of records and an output beside it is turned down, by the number that C is told.
#[derive(Clone, Copy)]
pub enum PolygonsRefusal {
    TooManyPolygons = 1,
    BufferTooShort = 2,
    UnknownKind = 6,
}
