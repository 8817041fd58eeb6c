//! Values of cells.
ghost use Rattle.std.specs.Prelude.{◌≡◌, ◌<◌, ◌^◌, pos};
ghost use Rattle.sqlite_value.specs.declared.value.Value.TheVariants.{Int, Text, Blob};
ghost use Rattle.sqlite_value.specs.Value.{owned};

use sqlite::types::ValueRef;

pub(crate) fn number(n: u32) -> ValueRef<'static>
    ensures number { owned result ≡ Int (pos n) }
{
    ValueRef::Int(i64::from(n))
}

pub(crate) fn counter(n: u64) -> ValueRef<'static>
    requires small { n < 2 ^ 63 }
    ensures counter { owned result ≡ Int (pos n) }
{
    ValueRef::Int(n as i64)
}

pub(crate) fn text(bytes: &[u8]) -> ValueRef<'_>
    ensures text { owned result ≡ Text bytes.now }
{
    ValueRef::Text(bytes)
}

pub(crate) fn blob(bytes: &[u8]) -> ValueRef<'_>
    ensures blob { owned result ≡ Blob bytes.now }
{
    ValueRef::Blob(bytes)
}
