// The entries of the state's arrays, by the numbers of nodes and functions: 0 reads as 0 and keeps all.
ghost use Rattle.std.specs.Prelude.{◌≡◌, ◌≤◌, false};
ghost use Rattle.rules.specs.State.{entry, write, register};

use table::{Function, Node};

// Entry k, counted from 1.
#[inline(always)]
fn at<T: Copy, const N: usize>(entries: &[T; N], k: u16, none: T) -> T
    requires { k ≤ N }
    ensures { result ≡ entry entries.now none k }
{
    if k == 0 {
        return none;
    }
    entries[k as usize - 1]
}

#[inline(always)]
fn put<T: Copy, const N: usize>(entries: &mut [T; N], k: u16, x: T)
    requires { k ≤ N }
    ensures { entries.new ≡ write entries.old k x }
{
    if k == 0 {
        return;
    }
    entries[k as usize - 1] = x;
}

pub(crate) fn status_at(status: &[u8; 512], n: Node) -> u8
    requires { n.0 ≤ 512 }
    ensures { result ≡ entry status.now 0 n.0 }
{
    at(status, n.0, 0)
}

// The same of a node, which has no test of 0.
pub(crate) fn status_of(status: &[u8; 512], n: Node) -> u8
    requires { (1 ≤ n.0) × (n.0 ≤ 512) }
    ensures { result ≡ entry status.now 0 n.0 }
{
    status[n.0 as usize - 1]
}

pub(crate) fn second_at(second: &[bool; 512], n: Node) -> bool
    requires { n.0 ≤ 512 }
    ensures { result ≡ entry second.now false n.0 }
{
    at(second, n.0, false)
}

pub(crate) fn value_at(value: &[u32; 512], n: Node) -> u32
    requires { n.0 ≤ 512 }
    ensures { result ≡ entry value.now 0 n.0 }
{
    at(value, n.0, 0)
}

pub(crate) fn occupant_at(occupant: &[u16; 32], f: Function) -> Node
    requires { f.0 ≤ 32 }
    ensures { result.0 ≡ entry occupant.now 0 f.0 }
{
    Node(at(occupant, f.0, 0))
}

// Register i of a function, i from 0.
pub(crate) fn register_at(registers: &[u32; 256], f: Function, i: u16) -> u32
    requires { f.0 ≤ 32 }
    ensures { result ≡ register registers.now f.0 i }
{
    let k = f.0 as usize;
    if k == 0 {
        return 0;
    }
    let j = i as usize;
    if 7 < j {
        return 0;
    }
    registers[8 * (k - 1) + j]
}

pub(crate) fn set_status(status: &mut [u8; 512], n: Node, x: u8)
    requires { n.0 ≤ 512 }
    ensures { status.new ≡ write status.old n.0 x }
{
    put(status, n.0, x);
}

pub(crate) fn set_second(second: &mut [bool; 512], n: Node, x: bool)
    requires { n.0 ≤ 512 }
    ensures { second.new ≡ write second.old n.0 x }
{
    put(second, n.0, x);
}

pub(crate) fn set_value(value: &mut [u32; 512], n: Node, x: u32)
    requires { n.0 ≤ 512 }
    ensures { value.new ≡ write value.old n.0 x }
{
    put(value, n.0, x);
}

pub(crate) fn set_occupant(occupant: &mut [u16; 32], f: Function, n: Node)
    requires { f.0 ≤ 32 }
    ensures { occupant.new ≡ write occupant.old f.0 n.0 }
{
    put(occupant, f.0, n.0);
}
