// The helpers by their numbers.

ghost use Rattle.std.specs.Prelude.{◌≡◌};
ghost use Rattle.helpers.specs.Numbers.{helper_of};

/// A function that a program may call (bpf-helpers(7)).
#[derive(Clone, Copy, PartialEq, Eq)]
pub enum Helper {
    /// `bpf_map_lookup_elem`, number 1.
    Lookup,
    /// `bpf_map_update_elem`, number 2.
    Update,
    /// `bpf_map_delete_elem`, number 3.
    Delete,
}

impl Helper {
    /// The helper of a number, if there is one.
    #[inline(always)]
    pub fn numbered(number: i32) -> Option<Helper>
        ensures helper { result ≡ helper_of number }
    {
        match number {
            1 => Some(Helper::Lookup),
            2 => Some(Helper::Update),
            3 => Some(Helper::Delete),
            _ => None,
        }
    }
}
