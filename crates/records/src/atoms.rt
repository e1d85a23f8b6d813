// Atom lists: a rule's head, or a source's inputs. A place that is not used holds 255.
ghost use Rattle.std.specs.Prelude.{◌≡◌, ◌≤◌, length};
ghost use Rattle.records.specs.Atoms.{ascends, used, ListsStand, UsedFirst};

// Whether the atoms ascend, the unused places last.
pub fn atoms_ascend(list: &[u8]) -> bool
    ensures { result ≡ ascends 0 list.now }
{
    list.is_sorted_by(|low, x| *low < *x || *x == 255)
}

// How many places are used.
pub fn used_places(list: &[u8]) -> usize
    ensures count { result ≡ used list.now }
    ensures few { result ≤ length list.now }
{
    list.iter().filter(|x| **x < 255).count()
}

// What the test of a list says of its places.
pub fn lists_stand()
    ensures same { ListsStand }
    ensures first { UsedFirst }
{}
