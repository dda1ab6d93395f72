// Classes of numbers by union-find in a lent list: each number points at itself or lower, and all of a class have one root.
// A caller may rely on the classes alone; which number of its class one points at, before `flatten`, is left open. The list stays a slice:
// the workspace lends it anew for each pair of cells, so that a struct would have to be made, and `Low` to be shown of it, each time.
ghost use Rattle.std.specs.Prelude.{◌≤◌, ◌<◌, length};
ghost use Rattle.cells.specs.inner.Forest.{Low, Found, Joined, Alone, Flat};
ghost use Rattle.cells.specs.inner.Table.{most_cells};

// The root above x. Each number passed is made to point past its parent, so that chains stay short.
fn find(p: &mut [u32], x: usize) -> usize
    requires low { Low p.old }
    requires x_in_bounds { x < length p.old }
    ensures { Found p.old p.new x result }
{
    let mut at = x;
    let mut up = p[at] as usize;
    // no `for`: a climb to the root counts nothing
    'climb: while up != at {
        let g = p[up];
        p[at] = g;
        at = g as usize;
        up = p[at] as usize;
    }
    at
}

// One class of the two that a and b are in: the higher root points at the lower.
pub(crate) fn join(p: &mut [u32], a: usize, b: usize)
    requires low { Low p.old }
    requires a_in_bounds { (a < length p.old) × (b < length p.old) }
    requires p_len_bound { length p.old ≤ most_cells }
    ensures { Joined p.old p.new a b }
{
    let ra = find(p, a);
    let rb = find(p, b);
    if ra < rb {
        p[rb] = ra as u32;
    } else {
        p[ra] = rb as u32;
    }
}

// Every number points at itself.
pub(crate) fn alone(p: &mut [u32])
    requires { length p.old ≤ most_cells }
    ensures { Alone (length p.old) (length p.old) p.new }
{
    for (i, x) in p.iter_mut().enumerate() {
        *x = i as u32;
    }
}

// Every number points at its root, the lowest of its class.
pub(crate) fn flatten(p: &mut [u32])
    requires { Low p.old }
    ensures { Flat p.old (length p.old) p.new }
{
    for j in 0..p.len() {
        let up = p[j] as usize;
        p[j] = p[up];
    }
}
