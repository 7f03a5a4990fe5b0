//! Code for options of any kind, generated from the kind's rows.

// Reads the option with this code from a slice that is its whole value.
macro_rules! read_option {
    ($order:ident $code:ident $len:ident $value:ident; $kind:ident; $($name:ident $number:literal $shape:ident $(($($of:tt)*))?;)*) => {
        Ok(match $code {
            $($number => Self::$name($crate::kinds::read_value!($shape $order $value $($($of)*)?)),)*
            2988 | 19372 => Self::CustomUtf8(CustomUtf8Option::read::<$order>($code, $value)?),
            2989 | 19373 => Self::CustomBinary(CustomBinaryOption::read::<$order>($code, $value)?),
            _ => Self::Unknown(UnknownOption::new($code, $len, $value)),
        })
    };
}

macro_rules! read_value {
    (string $order:ident $value:ident) => { $crate::values::string_value($value)? };
    (bytes $order:ident $value:ident) => { CowBytes::Borrowed($value) };
    (some_bytes $order:ident $value:ident $empty:ident) => { $crate::values::some_value($value, pcap_core::rules::Rule::$empty)? };
    (fixed_bytes $order:ident $value:ident $n:literal $wrong:ident) => { $crate::values::fixed_value($value, $n, pcap_core::rules::Rule::$wrong)? };
    (byte $order:ident $value:ident $wrong:ident) => { $crate::values::u8_value($value, pcap_core::rules::Rule::$wrong)? };
    (number4 $order:ident $value:ident $wrong:ident) => { $crate::values::u32_value::<$order>($value, pcap_core::rules::Rule::$wrong)? };
    (number8 $order:ident $value:ident $wrong:ident) => { $crate::values::u64_value::<$order>($value, pcap_core::rules::Rule::$wrong)? };
    (first_number $order:ident $value:ident) => { $crate::values::first_number::<$order>($value)? };
    (first_time $order:ident $value:ident) => { $crate::values::first_time::<$order>($value)? };
}

// Borrows an option's code and value.
macro_rules! held_option {
    ($option:tt; $kind:ident; $($name:ident $number:literal $shape:ident $(($($of:tt)*))?;)*) => {
        match $option {
            $(Self::$name(held) => Held { code: $number, value: $crate::kinds::held_value!($shape held) },)*
            Self::CustomBinary(held) => Held {
                code: held.code(),
                value: HeldValue::CustomBytes(held.pen(), held.value()),
            },
            Self::CustomUtf8(held) => Held {
                code: held.code(),
                value: HeldValue::CustomStr(held.pen(), held.value()),
            },
            Self::Unknown(held) => Held {
                code: held.code(),
                value: HeldValue::Unknown(held.length(), held.value()),
            },
        }
    };
}

macro_rules! held_value {
    (string $held:ident) => { HeldValue::Str($held.as_str()) };
    (byte $held:ident) => { HeldValue::Integer(u64::from(*$held)) };
    (number4 $held:ident) => { HeldValue::Integer(u64::from(*$held)) };
    (number8 $held:ident) => { HeldValue::Integer(*$held) };
    (first_number $held:ident) => { HeldValue::Integer(*$held) };
    (first_time $held:ident) => { HeldValue::Integer(*$held) };
    ($bytes:ident $held:ident) => { HeldValue::Bytes($held.as_slice()) };
}

// Wraps the value that a call returned in this variant, or returns the call's error. Such an arm leaves by the one exit
// of its `match`. Each `?` would add an exit with its own proof.
macro_rules! with_value {
    ($variant:path, $value:expr) => {
        match $value {
            Ok(value) => Ok($variant(value)),
            Err(error) => Err(error),
        }
    };
}

// Converts an option to one that owns its string or bytes.
macro_rules! kept_option {
    ($option:tt $alloc:ident; $kind:ident; $($name:ident $number:literal $shape:ident $(($($of:tt)*))?;)*) => {
        match $option {
            $($kind::$name(held) => $crate::kinds::kept_value!($shape $kind::$name, held, $alloc),)*
            $kind::CustomBinary(held) => $crate::kinds::with_value!($kind::CustomBinary, held.into_static($alloc)),
            $kind::CustomUtf8(held) => $crate::kinds::with_value!($kind::CustomUtf8, held.into_static($alloc)),
            $kind::Unknown(held) => $crate::kinds::with_value!($kind::Unknown, held.into_static($alloc)),
        }
    };
}

macro_rules! kept_value {
    (string $variant:path, $held:ident, $alloc:ident) => { $crate::kinds::with_value!($variant, $held.into_static($alloc)) };
    (bytes $variant:path, $held:ident, $alloc:ident) => { $crate::kinds::with_value!($variant, $held.into_static($alloc)) };
    (some_bytes $variant:path, $held:ident, $alloc:ident) => { $crate::kinds::with_value!($variant, $held.into_static($alloc)) };
    (fixed_bytes $variant:path, $held:ident, $alloc:ident) => { $crate::kinds::with_value!($variant, $held.into_static($alloc)) };
    ($number:ident $variant:path, $held:ident, $alloc:ident) => { Ok($variant($held)) };
}

pub(crate) use held_option;
pub(crate) use held_value;
pub(crate) use kept_option;
pub(crate) use kept_value;
pub(crate) use read_option;
pub(crate) use read_value;
pub(crate) use with_value;
