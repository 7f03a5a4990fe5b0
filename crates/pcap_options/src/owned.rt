//! Values that outlive the bytes that they were read from.

ghost use Rattle.std.specs.Prelude.{◌≡◌, [], All, IsOk, IfOk};
ghost use Rattle.std.specs.Cow.{cow_str_bytes, IsOwnedStr};
ghost use Rattle.std.specs.List.{AllZip};
ghost use Rattle.pcap_core.specs.Bytes.{cow_bytes, IsOwned};

use pcap_core::CowBytes;
use std::alloc::{AllocError, Global};
use std::borrow::CowStr;

/// A value that can be made to own its bytes and strings.
pub trait IntoStatic: Sized {
    /// The type of the owned value.
    type Owned;

    // The owned value has the same contents as the original.
    ghost is_same: { Self → Self.Owned → Type 0 };

    // All strings and bytes of the value are owned.
    ghost is_owned: { Self.Owned → Type 0 };

    // The whole value is owned already, and it has no list to build anew.
    ghost needs_no_memory: { Self → Type 0 };

    /// Returns the value with its own bytes and strings: it copies borrowed ones and keeps owned ones.
    fn into_static(self, alloc: Global) -> Result<Self::Owned, AllocError>
        ensures same { IfOk result (is_same self) }
        ensures owned { IfOk result is_owned }
        ensures kept { needs_no_memory self → IsOk result };
}

/// Rebuilds a struct with owned fields: it moves plain fields, makes `held` fields owned, and makes the items of `each`
/// lists owned.
#[macro_export]
macro_rules! kept_fields {
    ($value:tt $alloc:ident $name:ident { $($plain:ident)* } $(held { $($held:ident)* })? $(each { $($list:ident)* })?) => {{
        let $name { $($plain,)* $($($held,)*)? $($($list,)*)? } = $value;
        Ok($name {
            $($plain,)*
            $($($held: $held.into_static($alloc)?,)*)?
            $($($list: $crate::each_into_static($alloc, $list)?,)*)?
        })
    }};
}

/// Makes each value of a list owned.
///
/// Returns an error if an allocation fails; the values are then dropped.
pub fn each_into_static<T: IntoStatic<Owned: Drop> + Drop>(
    alloc: Global,
    items: Vec<T>,
) -> Result<Vec<T::Owned>, AllocError>
    ensures same { IfOk result (λ kept. AllZip T.is_same items.items kept.items) }
    ensures owned { IfOk result (λ kept. All T.is_owned kept.items) }
    ensures kept { items.items ≡ [] → IsOk result }
{
    let mut kept = Vec::with_capacity(alloc, items.len())?;
    for item in items {
        kept.push(item.into_static(alloc)?)?;
    }
    Ok(kept)
}

impl<'a> IntoStatic for CowStr<'a> {
    type Owned = CowStr<'static>;

    ghost is_same = { λ string kept. cow_str_bytes kept ≡ cow_str_bytes string };

    ghost is_owned = { IsOwnedStr };

    ghost needs_no_memory = { IsOwnedStr };

    fn into_static(self, alloc: Global) -> Result<CowStr<'static>, AllocError> {
        Ok(CowStr::Owned(self.into_owned(alloc)?))
    }
}

impl<'a> IntoStatic for CowBytes<'a> {
    type Owned = CowBytes<'static>;

    ghost is_same = { λ bytes kept. cow_bytes kept ≡ cow_bytes bytes };

    ghost is_owned = { IsOwned };

    ghost needs_no_memory = { IsOwned };

    fn into_static(self, alloc: Global) -> Result<CowBytes<'static>, AllocError> {
        match self {
            CowBytes::Borrowed(bytes) => Ok(CowBytes::Owned(Vec::from_slice(alloc, bytes)?)),
            CowBytes::Owned(bytes) => Ok(CowBytes::Owned(bytes)),
        }
    }
}
