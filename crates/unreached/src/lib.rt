//! Places that no run reaches, on the paths of a call.
//!
//! `unreachable!()` is a trap with a test before it, in a proved build too. These tests were a sixth of the instructions of an
//! update. On the paths of a call `unreached!()` has none; elsewhere `unreachable!()` is the better choice.
#![tactic(auto)]

ghost use Rattle.std.specs.Prelude.{IsTrue};

/// A place that no run reaches. The code there proves it, as it does for `unreachable!()`, and the compiler drops the test before it.
///
/// # Examples
///
/// ```
/// ghost use Rattle.std.specs.Prelude.{◌<◌};
///
/// use unreached::unreached;
///
/// fn name(bit: u8) -> &'static str
///     requires bit { bit < 2 }
/// {
///     match bit {
///         0 => "off",
///         1 => "on",
///         _ => unreached!(),
///     }
/// }
///
/// assert_eq!(rt; name(1), "on");
/// ```
#[macro_export]
macro_rules! unreached {
    () => {{
        $crate::assert_unchecked(false);
        unreachable!()
    }};
}

/// Tells the compiler that a condition holds, as `std::hint::assert_unchecked` of Rust does. That of the kit tells it nothing.
///
/// # Examples
///
/// ```
/// use unreached::assert_unchecked;
///
/// let half = 84 / 2;
/// assert_unchecked(half < 64);
/// assert_eq!(rt; half, 42);
/// ```
#[inline(always)]
pub fn assert_unchecked(condition: bool)
    requires { IsTrue condition }
    ensures { IsTrue condition }
{
    if condition {
        return;
    }
    // Of a write through a null pointer a compiler concludes that no run comes here.
    let nowhere: *mut u8 = std::ptr::null_mut();
    unsafe { std::ptr::write(nowhere, 0) };
}
