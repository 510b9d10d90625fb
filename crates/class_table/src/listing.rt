//! Classes that flags may cover.

ghost use Rattle.std.specs.Prelude.{◌≡◌, map};
ghost use Rattle.class_table.specs.Lookup as spec;

/// `osd_class_default_list` of Ceph 16.2.15, which a cluster's setting can replace.
static DEFAULT_LIST: [&str; 19] = [
    "cephfs",
    "hello",
    "journal",
    "lock",
    "log",
    "numops",
    "otp",
    "rbd",
    "refcount",
    "rgw",
    "rgw_gc",
    "timeindex",
    "user",
    "version",
    "cas",
    "cmpomap",
    "queue",
    "2pc_queue",
    "fifo",
];

/// The classes that are listed by default.
pub fn default_list() -> &'static [&'static str] {
    &DEFAULT_LIST
}

/// Whether a class is among these names. The flags of a grant (`class-read`, `class-write`) cover calls of listed classes alone.
pub fn is_listed(class: &[u8], names: &[&str]) -> bool
    ensures { result ≡ spec.is_listed class.now (map (λ name. name.now) names.now) }
{
    for name in names {
        if name.as_bytes() == class {
            return true;
        }
    }
    false
}
