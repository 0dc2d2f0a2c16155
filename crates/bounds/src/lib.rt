// The C interface: one function an operation, none of which asks anything of its caller.
#![tactic(auto)]

pub mod boxes;
pub mod composites;
pub mod geometry;
pub mod octant_writing;
pub mod shrunk;

ghost use Rattle.std.specs.Prelude.{◌≡◌, ◌+◌, ◌*◌, length, take};
ghost use Rattle.std.specs.Float.{binary32};
ghost use Rattle.std.specs.Float.Ieee.{of_bits, to_bits};
ghost use Rattle.float32.specs.Casts.{cast_i32, low16, short_of, vertex_of};
ghost use Rattle.float32.specs.Comparison.{relation_of};
ghost use Rattle.float32.specs.Counts.{of_count};
ghost use Rattle.float32.specs.Extremes.{vmin_of, vmax_of, vmin_word, vmax_word, min_number_of, max_number_of};
ghost use Rattle.float32.specs.SortOrder.{cmp_of, key_of};
ghost use Rattle.float32.specs.SquareRoot.{sqrt_of};
ghost use Rattle.math.specs.Stored.{vmin_words_of, vmax_words_of};
ghost use Rattle.math.specs.Transform.{point_of, vector_of};
ghost use Rattle.math.specs.Vec3s.{add_of, sub_of, scale_of, neg_of, abs_of, dot_of, cross_of, length_of, vmul_of, vdiv_of, vadd_of, norm_of, vmin3_of, vmax3_of, cmp_vec3_of};
ghost use Rattle.bvh.specs.Entry.{entries_in, entries_of, outputs, lent, lengths_of};
ghost use Rattle.answers.specs.Numbers.{relation_number, ordering_number};
ghost use Rattle.walk.specs.Walks.{walk_of};
ghost use Rattle.answers.specs.Trees.{work_len, Answers, HeaderWritten};
ghost use Rattle.answers.specs.WalkAnswers.{sizes_of, WalkAnswered};

use answers::trees::BuildAnswer;
use answers::walks::WalkAnswer;
use bvh::items::BvhItem;
use header::Bvh;
use math::aabb::Aabb;
use math::mat4::{Mat4, Vec4};
use math::vec3::Vec3;
use math::words3::Words3;

// ---- words and floats

#[unsafe(no_mangle)]
pub extern "C" fn bounds_value(word: u32) -> f32
    ensures { result ≡ of_bits binary32 word }
{
    float32::words::value(word)
}

#[unsafe(no_mangle)]
pub extern "C" fn bounds_bits(x: f32) -> u32
    ensures { result ≡ to_bits binary32 x }
{
    float32::words::bits(x)
}

// The word again, or 7FC00000 hexadecimal for each NaN.
#[unsafe(no_mangle)]
pub extern "C" fn bounds_value_bits(word: u32) -> u32
    ensures { result ≡ to_bits binary32 (of_bits binary32 word) }
{
    float32::words::bits(float32::words::value(word))
}

// ---- comparison

#[unsafe(no_mangle)]
pub extern "C" fn bounds_relate(a: f32, b: f32) -> u32
    ensures { result ≡ relation_number (relation_of a b) }
{
    answers::numbers::relation_number(float32::compare::relate(a, b))
}

#[unsafe(no_mangle)]
pub extern "C" fn bounds_cmp_f32(a: f32, b: f32) -> i32
    ensures { result ≡ ordering_number (cmp_of a b) }
{
    answers::numbers::ordering_number(float32::sorting::cmp_f32(a, b))
}

#[unsafe(no_mangle)]
pub extern "C" fn bounds_order_key(word: u32) -> u32
    ensures { result ≡ key_of word }
{
    float32::sorting::order_key(word)
}

// ---- the lesser and the greater

#[unsafe(no_mangle)]
pub extern "C" fn bounds_vmin(a: f32, b: f32) -> f32
    ensures { result ≡ vmin_of a b }
{
    float32::extremes::vmin(a, b)
}

#[unsafe(no_mangle)]
pub extern "C" fn bounds_vmax(a: f32, b: f32) -> f32
    ensures { result ≡ vmax_of a b }
{
    float32::extremes::vmax(a, b)
}

#[unsafe(no_mangle)]
pub extern "C" fn bounds_min_number(a: f32, b: f32) -> f32
    ensures { result ≡ min_number_of a b }
{
    float32::extremes::min_number(a, b)
}

#[unsafe(no_mangle)]
pub extern "C" fn bounds_max_number(a: f32, b: f32) -> f32
    ensures { result ≡ max_number_of a b }
{
    float32::extremes::max_number(a, b)
}

#[unsafe(no_mangle)]
pub extern "C" fn bounds_vmin_word(a: u32, b: u32) -> u32
    ensures { result ≡ vmin_word a b }
{
    float32::extremes::vmin_word(a, b)
}

#[unsafe(no_mangle)]
pub extern "C" fn bounds_vmax_word(a: u32, b: u32) -> u32
    ensures { result ≡ vmax_word a b }
{
    float32::extremes::vmax_word(a, b)
}

// ---- casts, root, counts

#[unsafe(no_mangle)]
pub extern "C" fn bounds_to_i32(x: f32) -> i32
    ensures { result ≡ cast_i32 x }
{
    float32::casts::to_i32(x)
}

#[unsafe(no_mangle)]
pub extern "C" fn bounds_wrap_i16(n: i32) -> i16
    ensures { result ≡ low16 n }
{
    float32::casts::wrap_i16(n)
}

#[unsafe(no_mangle)]
pub extern "C" fn bounds_to_short(x: f32) -> i16
    ensures { result ≡ short_of x }
{
    float32::casts::to_short(x)
}

#[unsafe(no_mangle)]
pub extern "C" fn bounds_vertex_value(x: f32) -> i16
    ensures { result ≡ vertex_of x }
{
    float32::casts::vertex_value(x)
}

#[unsafe(no_mangle)]
pub extern "C" fn bounds_sqrt(x: f32) -> f32
    ensures { result ≡ sqrt_of binary32 x }
{
    float32::root::sqrt(x)
}

#[unsafe(no_mangle)]
pub extern "C" fn bounds_of_count(n: u16) -> f32
    ensures { result ≡ of_count n }
{
    float32::counts::of_count(n)
}

// ---- points

#[unsafe(no_mangle)]
pub extern "C" fn bounds_add(a: Vec3, b: Vec3) -> Vec3
    ensures { result ≡ add_of a b }
{
    a.add(b)
}

#[unsafe(no_mangle)]
pub extern "C" fn bounds_sub(a: Vec3, b: Vec3) -> Vec3
    ensures { result ≡ sub_of a b }
{
    a.sub(b)
}

#[unsafe(no_mangle)]
pub extern "C" fn bounds_cross(a: Vec3, b: Vec3) -> Vec3
    ensures { result ≡ cross_of a b }
{
    a.cross(b)
}

#[unsafe(no_mangle)]
pub extern "C" fn bounds_scale(a: Vec3, k: f32) -> Vec3
    ensures { result ≡ scale_of a k }
{
    a.scale(k)
}

#[unsafe(no_mangle)]
pub extern "C" fn bounds_neg(a: Vec3) -> Vec3
    ensures { result ≡ neg_of a }
{
    a.neg()
}

#[unsafe(no_mangle)]
pub extern "C" fn bounds_abs(a: Vec3) -> Vec3
    ensures { result ≡ abs_of a }
{
    a.abs()
}

#[unsafe(no_mangle)]
pub extern "C" fn bounds_dot(a: Vec3, b: Vec3) -> f32
    ensures { result ≡ dot_of a b }
{
    a.dot(b)
}

#[unsafe(no_mangle)]
pub extern "C" fn bounds_length(a: Vec3) -> f32
    ensures { result ≡ length_of a }
{
    a.length()
}

#[unsafe(no_mangle)]
pub extern "C" fn bounds_vmul(a: Vec3, b: Vec3) -> Vec3
    ensures { result ≡ vmul_of a b }
{
    math::vec3::vmul(a, b)
}

#[unsafe(no_mangle)]
pub extern "C" fn bounds_vdiv(a: Vec3, b: Vec3) -> Vec3
    ensures { result ≡ vdiv_of a b }
{
    math::vec3::vdiv(a, b)
}

#[unsafe(no_mangle)]
pub extern "C" fn bounds_vadd_f(a: Vec3, f: f32) -> Vec3
    ensures { result ≡ vadd_of a f }
{
    math::vec3::vadd_f(a, f)
}

#[unsafe(no_mangle)]
pub extern "C" fn bounds_norm(v: Vec3) -> Vec3
    ensures { result ≡ norm_of v }
{
    math::vec3::norm(v)
}

#[unsafe(no_mangle)]
pub extern "C" fn bounds_vmin3(a: Vec3, b: Vec3) -> Vec3
    ensures { result ≡ vmin3_of a b }
{
    math::vec3::vmin(a, b)
}

#[unsafe(no_mangle)]
pub extern "C" fn bounds_vmax3(a: Vec3, b: Vec3) -> Vec3
    ensures { result ≡ vmax3_of a b }
{
    math::vec3::vmax(a, b)
}

#[unsafe(no_mangle)]
pub extern "C" fn bounds_cmp_vec3(a: Vec3, b: Vec3) -> i32
    ensures { result ≡ ordering_number (cmp_vec3_of a b) }
{
    answers::numbers::ordering_number(math::vec3::cmp_vec3(a, b))
}

#[unsafe(no_mangle)]
pub extern "C" fn bounds_vmin_words3(a: Words3, b: Words3) -> Words3
    ensures { result ≡ vmin_words_of a b }
{
    math::words3::vmin_words(a, b)
}

#[unsafe(no_mangle)]
pub extern "C" fn bounds_vmax_words3(a: Words3, b: Words3) -> Words3
    ensures { result ≡ vmax_words_of a b }
{
    math::words3::vmax_words(a, b)
}

// ---- transforms

#[unsafe(no_mangle)]
pub extern "C" fn bounds_transform_point(m: Mat4, p: Vec3) -> Vec4
    ensures { result ≡ point_of m p }
{
    m.transform_point(p)
}

#[unsafe(no_mangle)]
pub extern "C" fn bounds_transform_vector(m: Mat4, v: Vec3) -> Vec3
    ensures { result ≡ vector_of m v }
{
    m.transform_vector(v)
}

// ---- trees

// The words that a build of n entries works in, all parts together: 7n for the entries, n each for places, temp and stack, 8(2n + 1) for
// the rows, 4n for the centres.
#[unsafe(no_mangle)]
pub extern "C" fn bounds_work_len(entries: u32) -> u64
    ensures { result ≡ work_len entries }
{
    answers::trees::work_len(entries)
}

// The tree of the present items. What it works in is lent in six parts: entries, places, temp, stack, rows and centres.
#[unsafe(no_mangle)]
pub extern "C" fn bounds_build_bvh(
    items: &[BvhItem],
    threshold: u32,
    node_bytes: &mut [u8],
    tree_bytes: &mut [u8],
    order: &mut [u16],
    entries: &mut [u32],
    places: &mut [u32],
    temp: &mut [u32],
    stack: &mut [u32],
    rows: &mut [u32],
    centres: &mut [f32],
) -> BuildAnswer
    ensures { Answers (entries_of items.now) threshold
        (lengths_of (outputs node_bytes.old tree_bytes.old order.old)
        (lent entries.old places.old temp.old stack.old rows.old centres.old)) result
        (outputs node_bytes.old tree_bytes.old order.old)
        (outputs node_bytes.new tree_bytes.new order.new) }
{
    answers::trees::build_answer(bvh::entry::build_bvh(
        items, threshold, node_bytes, tree_bytes, order, entries, places, temp, stack, rows,
        centres,
    ))
}

// The 128 bytes of a tree's header; 01's number, 0 where it is not refused.
#[unsafe(no_mangle)]
pub extern "C" fn bounds_tree_header(out: &mut [u8], bvh: Bvh) -> u32
    ensures { HeaderWritten bvh out.old out.new result }
{
    answers::numbers::header_number(header::tree_header(out, bvh))
}

// ---- walks

// The positions of the items whose records meet the query.
#[unsafe(no_mangle)]
pub extern "C" fn bounds_walk(
    query: Aabb,
    cen: Vec3,
    inverse: Vec3,
    node_bytes: &[u8],
    node_count: usize,
    tree_bytes: &[u8],
    tree_count: usize,
    item_count: usize,
    out: &mut [u16],
) -> WalkAnswer
    ensures { WalkAnswered (walk_of query cen inverse (sizes_of node_count tree_count item_count)
        node_bytes.now tree_bytes.now (length out.old)) out.old out.new result }
{
    let sizes = answers::walks::sizes(node_count, tree_count, item_count);
    answers::walks::walk_answer(walk::entry::walk_bvh(
        query, cen, inverse, sizes, node_bytes, tree_bytes, out,
    ))
}

// ---- premises of the walk's promise

ghost use Rattle.tree.specs.premises.Judgement.{Judged};

// Whether the entries meet the premises under which a walk misses nothing, and what breaks them first where not.
#[unsafe(no_mangle)]
pub extern "C" fn bounds_ordinary(
    entry_count: usize,
    entries: &[u32],
) -> tree::premises::ordinary::Premises
    ensures { Judged (entries_in entry_count (take (7 * entry_count) entries.now)) (length entries.now) result }
{
    tree::premises::ordinary::ordinary(entry_count, entries)
}
