ghost use Rattle.std.specs.Prelude.{◌≡◌};

/// How large a page may be.
#[derive(Clone, Copy, Debug, PartialEq, Eq)]
pub struct Limits {
    /// Levels of elements, the root being level 1.
    pub depth: u32,
    /// Bytes of a start or end tag.
    pub tag: u64,
    /// Bytes of a page.
    pub page: u64,
}

impl Limits {
    /// 512 levels, tags of 1 MiB, pages of 1 GiB.
    pub fn standard() -> Limits
        ensures depth { result.depth ≡ 512 }
        ensures tag { result.tag ≡ 1048576 }
        ensures page { result.page ≡ 1073741824 }
    {
        Limits {
            depth: 512,
            tag: 1_048_576,
            page: 1_073_741_824,
        }
    }
}
