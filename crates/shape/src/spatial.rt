// The pointer of a feature to a vector, FSPT, as its primitive wants it.
ghost use Rattle.std.specs.Prelude.{◌≤◌, ◌≡◌, length};
ghost use Rattle.vectorshape.specs.Shape.{is_node, point_good, one_or_two, line_good, area_good, spatial_good, spatial_count};

use table::offsets;

fn is_node(v: u8) -> bool
    ensures { result ≡ is_node v }
{
    if v == 110 {
        return true;
    }
    v == 120
}

// Of a point: to a node.
fn point_good(e: &[u8]) -> bool
    requires { 8 ≤ length e.now }
    ensures { result ≡ point_good e.now }
{
    if !is_node(e[0]) {
        return false;
    }
    if e[offsets::FSPT_ORNT] != 255 {
        return false;
    }
    if e[offsets::FSPT_USAG] != 255 {
        return false;
    }
    e[offsets::FSPT_MASK] == 255
}

fn one_or_two(v: u8) -> bool
    ensures { result ≡ one_or_two v }
{
    if v == 1 {
        return true;
    }
    v == 2
}

// Of a line: to an edge.
fn line_good(e: &[u8]) -> bool
    requires { 8 ≤ length e.now }
    ensures { result ≡ line_good e.now }
{
    if e[0] != 130 {
        return false;
    }
    if !one_or_two(e[offsets::FSPT_ORNT]) {
        return false;
    }
    if e[offsets::FSPT_USAG] != 255 {
        return false;
    }
    let mask = e[offsets::FSPT_MASK];
    one_or_two(mask)
}

// Of an area: to an edge.
fn area_good(e: &[u8]) -> bool
    requires { 8 ≤ length e.now }
    ensures { result ≡ area_good e.now }
{
    if e[0] != 130 {
        return false;
    }
    if !one_or_two(e[offsets::FSPT_ORNT]) {
        return false;
    }
    let usage = e[offsets::FSPT_USAG];
    if usage == 3 {
        return e[offsets::FSPT_MASK] == 255;
    }
    if !one_or_two(usage) {
        return false;
    }
    one_or_two(e[offsets::FSPT_MASK])
}

pub fn spatial_good(e: &[u8], prim: u32) -> bool
    requires { 8 ≤ length e.now }
    ensures { result ≡ spatial_good prim e.now }
{
    if prim == 1 {
        return point_good(e);
    }
    if prim == 2 {
        return line_good(e);
    }
    area_good(e)
}

// Whether n are as many as the primitive wants.
pub fn spatial_count(prim: u32, n: usize) -> bool
    ensures { result ≡ spatial_count prim n }
{
    if prim == 1 {
        return n == 1;
    }
    1 <= n
}
