// Numbers of a kind that no rule of the dump spells. The expected bytes are written by hand, the lowest first, and their digits by rule L14.
ghost use Rattle.base.specs.LittleEndian.{little_endian};
ghost use Rattle.base.proofs.LittleEndian.{number_bytes};
ghost use Rattle.hex_lines.specs.declared.tests.ThreeBytes.{ThreeBytes};

use crate::hex::{Number, put_numbers};
use crate::lines::numbers_line;
use base::little_endian::put_le;
use std::io::pipe;
use std::os::fd::AsRawFd;
use std::test::Fail;

// Three bytes, since a dump has numbers of two and of four bytes alone.
#[derive(Clone, Copy)]
struct ThreeBytes(u32);

impl Number for ThreeBytes {
    ghost bytes_of = { λ n. little_endian 3 n.0 };

    ghost SIZE = { 3 };

    const SIZE: usize = 3;

    fn put(self, out: &mut [u8], at: usize) {
        put_le(out, at, 3, u64::from(self.0));
    }

    ghost as_many = { λ n. (number_bytes 3 n.0).size };
}

const TWO: [ThreeBytes; 2] = [ThreeBytes(0x0A_0B_0C), ThreeBytes(0xFE_10_00)];

#[test]
fn puts_numbers_of_any_kind(rt: HostRuntime) {
    let mut out = [7u8; 8];
    put_numbers(&mut out, &TWO);
    assert_eq!(rt; out, [0x0C, 0x0B, 0x0A, 0x00, 0x10, 0xFE, 7, 7]);
}

#[test]
fn prints_a_line_of_any_kind(rt: HostRuntime) -> Result<(), Fail> {
    let (reader, writer) = pipe(&rt)?;
    numbers_line(writer.as_raw_fd(), b"two ", &TWO, 2);
    numbers_line(writer.as_raw_fd(), b"one ", &TWO, 1);
    drop(writer);
    let mut text = [0u8; 32];
    let n = io::read_full(reader.as_raw_fd(), &mut text);
    assert_eq!(rt; &text[..n], b"two 0C0B0A0010FE\none 0C0B0A\n".as_slice());
    Ok(())
}
