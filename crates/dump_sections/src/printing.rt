// The dump of what preparing answered.
ghost use Rattle.std.specs.Prelude.{◌≤◌, length};
ghost use Rattle.dump_sections.specs.Sizes.{Small};

use crate::sections::{hull_lines, lists_lines, octants_line, tree_line, tree_lines, values_lines};
use hex_lines::lines::refused_line;
use meshes::{Counts, PrepareRefusal};
use prepared::Prepared;

// Kind 4. Kind 8 is not prepared here.
pub fn print_geometry(
    to: i32,
    c: Counts,
    answer: Result<Prepared, PrepareRefusal>,
    list: &[u8],
    indices: &[u8],
    polygons: &[u8],
    stored: &[u8],
    floats: &[u32],
    shrunk: &[u8],
    shrunk_floats: &[u32],
    octants: &[u32],
)
    requires { (Small c) × (2048 ≤ length list.now) × (512 ≤ length indices.now) × (8192 ≤ length polygons.now)
        × (4096 ≤ length stored.now) × (2048 ≤ length floats.now) × (4096 ≤ length shrunk.now)
        × (2048 ≤ length shrunk_floats.now) × (5376 ≤ length octants.now) }
{
    let v = c.vertices;
    match answer {
        Ok(Prepared::Geometry(values, o)) => {
            values_lines(to, values);
            octants_line(to, Some(o));
            tree_line(to, None);
            lists_lines(
                to,
                c,
                values.materials,
                list,
                indices,
                polygons,
                stored,
                floats,
            );
            hull_lines(to, v, o, shrunk, shrunk_floats, octants);
        }
        Err(why) => refused_line(to, u64::from(u32::from(why))),
        _ => {}
    }
}

// Kind 8. Kind 4 is not prepared here. Not one function with `print_geometry`: the last three slices are those of one kind alone.
pub fn print_bvh(
    to: i32,
    c: Counts,
    answer: Result<Prepared, PrepareRefusal>,
    list: &[u8],
    indices: &[u8],
    polygons: &[u8],
    stored: &[u8],
    floats: &[u32],
    node_bytes: &[u8],
    tree_bytes: &[u8],
    order: &[u16],
)
    requires { (Small c) × (2048 ≤ length list.now) × (512 ≤ length indices.now) × (8192 ≤ length polygons.now)
        × (4096 ≤ length stored.now) × (2048 ≤ length floats.now) × (15360 ≤ length node_bytes.now)
        × (15360 ≤ length tree_bytes.now) × (512 ≤ length order.now) }
{
    let p = c.polygons;
    match answer {
        Ok(Prepared::Bvh(values, t)) => {
            values_lines(to, values);
            octants_line(to, None);
            tree_line(to, Some(t));
            lists_lines(
                to,
                c,
                values.materials,
                list,
                indices,
                polygons,
                stored,
                floats,
            );
            tree_lines(to, p, t, node_bytes, tree_bytes, order);
        }
        Ok(Prepared::Empty(values)) => {
            values_lines(to, values);
            octants_line(to, None);
            tree_line(to, None);
            lists_lines(
                to,
                c,
                values.materials,
                list,
                indices,
                polygons,
                stored,
                floats,
            );
        }
        Err(why) => refused_line(to, u64::from(u32::from(why))),
        _ => {}
    }
}
