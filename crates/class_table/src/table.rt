//! The methods of the classes of Ceph 16.2.15, with their flags, as its class libraries register them.

use crate::flags::{ClassMethod, MethodFlags};

const READS: MethodFlags = MethodFlags {
    reads: true,
    writes: false,
    promotes: false,
};

const WRITES: MethodFlags = MethodFlags {
    reads: false,
    writes: true,
    promotes: false,
};

const READS_AND_WRITES: MethodFlags = MethodFlags {
    reads: true,
    writes: true,
    promotes: false,
};

const READS_AND_PROMOTES: MethodFlags = MethodFlags {
    reads: true,
    writes: false,
    promotes: true,
};

const WRITES_AND_PROMOTES: MethodFlags = MethodFlags {
    reads: false,
    writes: true,
    promotes: true,
};

const READS_WRITES_AND_PROMOTES: MethodFlags = MethodFlags {
    reads: true,
    writes: true,
    promotes: true,
};

/// How many parts the table has.
pub(crate) const PARTS: usize = 26;

/// A part of the table: the methods of a class, or some of them. Each part is read by a function of its own, since the prover
/// reads each static that a function names as a whole.
pub(crate) fn part(index: usize) -> &'static [ClassMethod] {
    match index {
        0 => two_phase_queue_methods(),
        1 => cas_methods(),
        2 => cephfs_methods(),
        3 => cmpomap_methods(),
        4 => fifo_methods(),
        5 => hello_methods(),
        6 => journal_methods(),
        7 => kvs_methods(),
        8 => lock_methods(),
        9 => log_methods(),
        10 => lua_methods(),
        11 => numops_methods(),
        12 => otp_methods(),
        13 => queue_methods(),
        14 => rbd_one_methods(),
        15 => rbd_two_methods(),
        16 => rbd_three_methods(),
        17 => rbd_four_methods(),
        18 => refcount_methods(),
        19 => rgw_one_methods(),
        20 => rgw_two_methods(),
        21 => rgw_gc_methods(),
        22 => sdk_methods(),
        23 => timeindex_methods(),
        24 => user_methods(),
        25 => version_methods(),
        _ => &[],
    }
}

static TWO_PHASE_QUEUE: [ClassMethod; 9] = [
    ClassMethod("2pc_queue", "2pc_queue_init", READS_AND_WRITES),
    ClassMethod("2pc_queue", "2pc_queue_get_capacity", READS),
    ClassMethod("2pc_queue", "2pc_queue_reserve", READS_AND_WRITES),
    ClassMethod("2pc_queue", "2pc_queue_commit", READS_AND_WRITES),
    ClassMethod("2pc_queue", "2pc_queue_abort", READS_AND_WRITES),
    ClassMethod("2pc_queue", "2pc_queue_list_reservations", READS),
    ClassMethod("2pc_queue", "2pc_queue_list_entries", READS),
    ClassMethod("2pc_queue", "2pc_queue_remove_entries", READS_AND_WRITES),
    ClassMethod(
        "2pc_queue",
        "2pc_queue_expire_reservations",
        READS_AND_WRITES,
    ),
];

fn two_phase_queue_methods() -> &'static [ClassMethod] {
    &TWO_PHASE_QUEUE
}

static CAS: [ClassMethod; 4] = [
    ClassMethod("cas", "chunk_create_or_get_ref", READS_AND_WRITES),
    ClassMethod("cas", "chunk_get_ref", READS_AND_WRITES),
    ClassMethod("cas", "chunk_put_ref", READS_AND_WRITES),
    ClassMethod("cas", "references_chunk", READS),
];

fn cas_methods() -> &'static [ClassMethod] {
    &CAS
}

static CEPHFS: [ClassMethod; 1] = [ClassMethod(
    "cephfs",
    "accumulate_inode_metadata",
    READS_AND_WRITES,
)];

fn cephfs_methods() -> &'static [ClassMethod] {
    &CEPHFS
}

static CMPOMAP: [ClassMethod; 3] = [
    ClassMethod("cmpomap", "cmp_vals", READS),
    ClassMethod("cmpomap", "cmp_set_vals", READS_AND_WRITES),
    ClassMethod("cmpomap", "cmp_rm_keys", READS_AND_WRITES),
];

fn cmpomap_methods() -> &'static [ClassMethod] {
    &CMPOMAP
}

static FIFO: [ClassMethod; 8] = [
    ClassMethod("fifo", "create_meta", READS_AND_WRITES),
    ClassMethod("fifo", "get_meta", READS),
    ClassMethod("fifo", "update_meta", READS_AND_WRITES),
    ClassMethod("fifo", "init_part", READS_AND_WRITES),
    ClassMethod("fifo", "push_part", READS_AND_WRITES),
    ClassMethod("fifo", "trim_part", READS_AND_WRITES),
    ClassMethod("fifo", "part_list", READS),
    ClassMethod("fifo", "get_part_info", READS),
];

fn fifo_methods() -> &'static [ClassMethod] {
    &FIFO
}

static HELLO: [ClassMethod; 9] = [
    ClassMethod("hello", "say_hello", READS),
    ClassMethod("hello", "record_hello", WRITES_AND_PROMOTES),
    ClassMethod("hello", "write_return_data", WRITES),
    ClassMethod("hello", "writes_dont_return_data", WRITES),
    ClassMethod("hello", "write_too_much_return_data", WRITES),
    ClassMethod("hello", "replay", READS),
    ClassMethod("hello", "turn_it_to_11", READS_WRITES_AND_PROMOTES),
    ClassMethod("hello", "bad_reader", WRITES),
    ClassMethod("hello", "bad_writer", READS),
];

fn hello_methods() -> &'static [ClassMethod] {
    &HELLO
}

static JOURNAL: [ClassMethod; 21] = [
    ClassMethod("journal", "create", READS_AND_WRITES),
    ClassMethod("journal", "get_order", READS),
    ClassMethod("journal", "get_splay_width", READS),
    ClassMethod("journal", "get_pool_id", READS),
    ClassMethod("journal", "get_minimum_set", READS),
    ClassMethod("journal", "set_minimum_set", READS_AND_WRITES),
    ClassMethod("journal", "get_active_set", READS),
    ClassMethod("journal", "set_active_set", READS_AND_WRITES),
    ClassMethod("journal", "get_client", READS),
    ClassMethod("journal", "client_register", READS_AND_WRITES),
    ClassMethod("journal", "client_update_data", READS_AND_WRITES),
    ClassMethod("journal", "client_update_state", READS_AND_WRITES),
    ClassMethod("journal", "client_unregister", READS_AND_WRITES),
    ClassMethod("journal", "client_commit", READS_AND_WRITES),
    ClassMethod("journal", "client_list", READS),
    ClassMethod("journal", "get_next_tag_tid", READS),
    ClassMethod("journal", "get_tag", READS),
    ClassMethod("journal", "tag_create", READS_AND_WRITES),
    ClassMethod("journal", "tag_list", READS),
    ClassMethod("journal", "guard_append", READS_AND_WRITES),
    ClassMethod("journal", "append", READS_AND_WRITES),
];

fn journal_methods() -> &'static [ClassMethod] {
    &JOURNAL
}

static KVS: [ClassMethod; 10] = [
    ClassMethod("kvs", "get_idata_from_key", READS),
    ClassMethod("kvs", "get_next_idata", READS),
    ClassMethod("kvs", "get_prev_idata", READS),
    ClassMethod("kvs", "read_many", READS),
    ClassMethod("kvs", "check_writable", READS_AND_WRITES),
    ClassMethod("kvs", "assert_size_in_bound", WRITES),
    ClassMethod("kvs", "omap_insert", WRITES),
    ClassMethod("kvs", "create_with_omap", WRITES),
    ClassMethod("kvs", "omap_remove", WRITES),
    ClassMethod("kvs", "maybe_read_for_balance", READS),
];

fn kvs_methods() -> &'static [ClassMethod] {
    &KVS
}

static LOCK: [ClassMethod; 7] = [
    ClassMethod("lock", "lock", READS_WRITES_AND_PROMOTES),
    ClassMethod("lock", "unlock", READS_WRITES_AND_PROMOTES),
    ClassMethod("lock", "break_lock", READS_AND_WRITES),
    ClassMethod("lock", "get_info", READS),
    ClassMethod("lock", "list_locks", READS),
    ClassMethod("lock", "assert_locked", READS_AND_PROMOTES),
    ClassMethod("lock", "set_cookie", READS_WRITES_AND_PROMOTES),
];

fn lock_methods() -> &'static [ClassMethod] {
    &LOCK
}

static LOG: [ClassMethod; 4] = [
    ClassMethod("log", "add", READS_AND_WRITES),
    ClassMethod("log", "list", READS),
    ClassMethod("log", "trim", READS_AND_WRITES),
    ClassMethod("log", "info", READS),
];

fn log_methods() -> &'static [ClassMethod] {
    &LOG
}

static LUA: [ClassMethod; 2] = [
    ClassMethod("lua", "eval_json", READS_AND_WRITES),
    ClassMethod("lua", "eval_bufferlist", READS_AND_WRITES),
];

fn lua_methods() -> &'static [ClassMethod] {
    &LUA
}

static NUMOPS: [ClassMethod; 2] = [
    ClassMethod("numops", "add", READS_AND_WRITES),
    ClassMethod("numops", "mul", READS_AND_WRITES),
];

fn numops_methods() -> &'static [ClassMethod] {
    &NUMOPS
}

static OTP: [ClassMethod; 6] = [
    ClassMethod("otp", "otp_set", READS_AND_WRITES),
    ClassMethod("otp", "otp_get", READS),
    ClassMethod("otp", "otp_check", READS_AND_WRITES),
    ClassMethod("otp", "otp_get_result", READS),
    ClassMethod("otp", "otp_remove", READS_AND_WRITES),
    ClassMethod("otp", "get_current_time", READS),
];

fn otp_methods() -> &'static [ClassMethod] {
    &OTP
}

static QUEUE: [ClassMethod; 5] = [
    ClassMethod("queue", "queue_init", READS_AND_WRITES),
    ClassMethod("queue", "queue_get_capacity", READS),
    ClassMethod("queue", "queue_enqueue", READS_AND_WRITES),
    ClassMethod("queue", "queue_list_entries", READS),
    ClassMethod("queue", "queue_remove_entries", READS_AND_WRITES),
];

fn queue_methods() -> &'static [ClassMethod] {
    &QUEUE
}

static RBD_ONE: [ClassMethod; 33] = [
    ClassMethod("rbd", "create", READS_AND_WRITES),
    ClassMethod("rbd", "get_features", READS),
    ClassMethod("rbd", "set_features", READS_AND_WRITES),
    ClassMethod("rbd", "get_size", READS),
    ClassMethod("rbd", "set_size", READS_AND_WRITES),
    ClassMethod("rbd", "get_snapcontext", READS),
    ClassMethod("rbd", "get_object_prefix", READS),
    ClassMethod("rbd", "get_data_pool", READS),
    ClassMethod("rbd", "get_snapshot_name", READS),
    ClassMethod("rbd", "get_snapshot_timestamp", READS),
    ClassMethod("rbd", "snapshot_get", READS),
    ClassMethod("rbd", "snapshot_add", READS_AND_WRITES),
    ClassMethod("rbd", "snapshot_remove", READS_AND_WRITES),
    ClassMethod("rbd", "snapshot_rename", READS_AND_WRITES),
    ClassMethod("rbd", "snapshot_trash_add", READS_AND_WRITES),
    ClassMethod("rbd", "get_all_features", READS),
    ClassMethod("rbd", "get_parent", READS),
    ClassMethod("rbd", "set_parent", READS_AND_WRITES),
    ClassMethod("rbd", "remove_parent", READS_AND_WRITES),
    ClassMethod("rbd", "parent_get", READS),
    ClassMethod("rbd", "parent_overlap_get", READS),
    ClassMethod("rbd", "parent_attach", READS_AND_WRITES),
    ClassMethod("rbd", "parent_detach", READS_AND_WRITES),
    ClassMethod("rbd", "set_protection_status", READS_AND_WRITES),
    ClassMethod("rbd", "get_protection_status", READS),
    ClassMethod("rbd", "get_stripe_unit_count", READS),
    ClassMethod("rbd", "set_stripe_unit_count", READS_AND_WRITES),
    ClassMethod("rbd", "get_create_timestamp", READS),
    ClassMethod("rbd", "get_access_timestamp", READS),
    ClassMethod("rbd", "get_modify_timestamp", READS),
    ClassMethod("rbd", "get_flags", READS),
    ClassMethod("rbd", "set_flags", READS_AND_WRITES),
    ClassMethod("rbd", "op_features_get", READS),
];

fn rbd_one_methods() -> &'static [ClassMethod] {
    &RBD_ONE
}

static RBD_TWO: [ClassMethod; 33] = [
    ClassMethod("rbd", "op_features_set", READS_AND_WRITES),
    ClassMethod("rbd", "metadata_list", READS),
    ClassMethod("rbd", "metadata_set", READS_AND_WRITES),
    ClassMethod("rbd", "metadata_remove", READS_AND_WRITES),
    ClassMethod("rbd", "metadata_get", READS),
    ClassMethod("rbd", "snapshot_get_limit", READS),
    ClassMethod("rbd", "snapshot_set_limit", READS_AND_WRITES),
    ClassMethod("rbd", "child_attach", READS_AND_WRITES),
    ClassMethod("rbd", "child_detach", READS_AND_WRITES),
    ClassMethod("rbd", "children_list", READS),
    ClassMethod("rbd", "migration_set", READS_AND_WRITES),
    ClassMethod("rbd", "migration_set_state", READS_AND_WRITES),
    ClassMethod("rbd", "migration_get", READS),
    ClassMethod("rbd", "migration_remove", READS_AND_WRITES),
    ClassMethod("rbd", "set_modify_timestamp", READS_AND_WRITES),
    ClassMethod("rbd", "set_access_timestamp", READS_AND_WRITES),
    ClassMethod("rbd", "add_child", READS_AND_WRITES),
    ClassMethod("rbd", "remove_child", READS_AND_WRITES),
    ClassMethod("rbd", "get_children", READS),
    ClassMethod("rbd", "get_id", READS),
    ClassMethod("rbd", "set_id", READS_AND_WRITES),
    ClassMethod("rbd", "dir_get_id", READS),
    ClassMethod("rbd", "dir_get_name", READS),
    ClassMethod("rbd", "dir_list", READS),
    ClassMethod("rbd", "dir_add_image", READS_AND_WRITES),
    ClassMethod("rbd", "dir_remove_image", READS_AND_WRITES),
    ClassMethod("rbd", "dir_rename_image", READS_AND_WRITES),
    ClassMethod("rbd", "dir_state_assert", READS),
    ClassMethod("rbd", "dir_state_set", READS_AND_WRITES),
    ClassMethod("rbd", "object_map_load", READS),
    ClassMethod("rbd", "object_map_save", READS_AND_WRITES),
    ClassMethod("rbd", "object_map_resize", READS_AND_WRITES),
    ClassMethod("rbd", "object_map_update", READS_AND_WRITES),
];

fn rbd_two_methods() -> &'static [ClassMethod] {
    &RBD_TWO
}

static RBD_THREE: [ClassMethod; 33] = [
    ClassMethod("rbd", "object_map_snap_add", READS_AND_WRITES),
    ClassMethod("rbd", "object_map_snap_remove", READS_AND_WRITES),
    ClassMethod("rbd", "snap_list", READS),
    ClassMethod("rbd", "snap_add", READS_AND_WRITES),
    ClassMethod("rbd", "snap_remove", READS_AND_WRITES),
    ClassMethod("rbd", "snap_rename", READS_AND_WRITES),
    ClassMethod("rbd", "mirror_uuid_get", READS),
    ClassMethod("rbd", "mirror_uuid_set", READS_AND_WRITES),
    ClassMethod("rbd", "mirror_mode_get", READS),
    ClassMethod("rbd", "mirror_mode_set", READS_AND_WRITES),
    ClassMethod("rbd", "mirror_peer_ping", READS_AND_WRITES),
    ClassMethod("rbd", "mirror_peer_list", READS),
    ClassMethod("rbd", "mirror_peer_add", READS_AND_WRITES),
    ClassMethod("rbd", "mirror_peer_remove", READS_AND_WRITES),
    ClassMethod("rbd", "mirror_peer_set_client", READS_AND_WRITES),
    ClassMethod("rbd", "mirror_peer_set_cluster", READS_AND_WRITES),
    ClassMethod("rbd", "mirror_peer_set_direction", READS_AND_WRITES),
    ClassMethod("rbd", "mirror_image_list", READS),
    ClassMethod("rbd", "mirror_image_get_image_id", READS),
    ClassMethod("rbd", "mirror_image_get", READS),
    ClassMethod("rbd", "mirror_image_set", READS_AND_WRITES),
    ClassMethod("rbd", "mirror_image_remove", READS_AND_WRITES),
    ClassMethod("rbd", "mirror_image_status_set", READS_WRITES_AND_PROMOTES),
    ClassMethod("rbd", "mirror_image_status_remove", READS_AND_WRITES),
    ClassMethod("rbd", "mirror_image_status_get", READS),
    ClassMethod("rbd", "mirror_image_status_list", READS),
    ClassMethod("rbd", "mirror_image_status_get_summary", READS),
    ClassMethod("rbd", "mirror_image_status_remove_down", READS_AND_WRITES),
    ClassMethod("rbd", "mirror_image_instance_get", READS),
    ClassMethod("rbd", "mirror_image_instance_list", READS),
    ClassMethod("rbd", "mirror_instances_list", READS),
    ClassMethod("rbd", "mirror_instances_add", READS_WRITES_AND_PROMOTES),
    ClassMethod("rbd", "mirror_instances_remove", READS_AND_WRITES),
];

fn rbd_three_methods() -> &'static [ClassMethod] {
    &RBD_THREE
}

static RBD_FOUR: [ClassMethod; 31] = [
    ClassMethod("rbd", "mirror_image_map_list", READS),
    ClassMethod("rbd", "mirror_image_map_update", WRITES),
    ClassMethod("rbd", "mirror_image_map_remove", WRITES),
    ClassMethod("rbd", "mirror_image_snapshot_unlink_peer", READS_AND_WRITES),
    ClassMethod(
        "rbd",
        "mirror_image_snapshot_set_copy_progress",
        READS_AND_WRITES,
    ),
    ClassMethod("rbd", "group_dir_list", READS),
    ClassMethod("rbd", "group_dir_add", READS_AND_WRITES),
    ClassMethod("rbd", "group_dir_remove", READS_AND_WRITES),
    ClassMethod("rbd", "group_dir_rename", READS_AND_WRITES),
    ClassMethod("rbd", "group_image_remove", READS_AND_WRITES),
    ClassMethod("rbd", "group_image_list", READS),
    ClassMethod("rbd", "group_image_set", READS_AND_WRITES),
    ClassMethod("rbd", "image_group_add", READS_AND_WRITES),
    ClassMethod("rbd", "image_group_remove", READS_AND_WRITES),
    ClassMethod("rbd", "image_group_get", READS),
    ClassMethod("rbd", "group_snap_set", READS_AND_WRITES),
    ClassMethod("rbd", "group_snap_remove", READS_AND_WRITES),
    ClassMethod("rbd", "group_snap_get_by_id", READS),
    ClassMethod("rbd", "group_snap_list", READS),
    ClassMethod("rbd", "trash_add", READS_AND_WRITES),
    ClassMethod("rbd", "trash_remove", READS_AND_WRITES),
    ClassMethod("rbd", "trash_list", READS),
    ClassMethod("rbd", "trash_get", READS),
    ClassMethod("rbd", "trash_state_set", READS_AND_WRITES),
    ClassMethod("rbd", "namespace_add", READS_AND_WRITES),
    ClassMethod("rbd", "namespace_remove", READS_AND_WRITES),
    ClassMethod("rbd", "namespace_list", READS),
    ClassMethod("rbd", "copyup", READS_AND_WRITES),
    ClassMethod("rbd", "sparse_copyup", READS_AND_WRITES),
    ClassMethod("rbd", "assert_snapc_seq", READS_AND_WRITES),
    ClassMethod("rbd", "sparsify", READS_AND_WRITES),
];

fn rbd_four_methods() -> &'static [ClassMethod] {
    &RBD_FOUR
}

static REFCOUNT: [ClassMethod; 4] = [
    ClassMethod("refcount", "get", READS_AND_WRITES),
    ClassMethod("refcount", "put", READS_AND_WRITES),
    ClassMethod("refcount", "set", READS_AND_WRITES),
    ClassMethod("refcount", "read", READS),
];

fn refcount_methods() -> &'static [ClassMethod] {
    &REFCOUNT
}

static RGW_ONE: [ClassMethod; 24] = [
    ClassMethod("rgw", "bucket_init_index", READS_AND_WRITES),
    ClassMethod("rgw", "bucket_set_tag_timeout", READS_AND_WRITES),
    ClassMethod("rgw", "bucket_list", READS),
    ClassMethod("rgw", "bucket_check_index", READS),
    ClassMethod("rgw", "bucket_rebuild_index", READS_AND_WRITES),
    ClassMethod("rgw", "bucket_update_stats", READS_AND_WRITES),
    ClassMethod("rgw", "bucket_prepare_op", READS_AND_WRITES),
    ClassMethod("rgw", "bucket_complete_op", READS_AND_WRITES),
    ClassMethod("rgw", "bucket_link_olh", READS_AND_WRITES),
    ClassMethod("rgw", "bucket_unlink_instance", READS_AND_WRITES),
    ClassMethod("rgw", "bucket_read_olh_log", READS),
    ClassMethod("rgw", "bucket_trim_olh_log", READS_AND_WRITES),
    ClassMethod("rgw", "bucket_clear_olh", READS_AND_WRITES),
    ClassMethod("rgw", "obj_remove", READS_AND_WRITES),
    ClassMethod("rgw", "obj_store_pg_ver", WRITES),
    ClassMethod("rgw", "obj_check_attrs_prefix", READS),
    ClassMethod("rgw", "obj_check_mtime", READS),
    ClassMethod("rgw", "bi_get", READS),
    ClassMethod("rgw", "bi_put", READS_AND_WRITES),
    ClassMethod("rgw", "bi_list", READS),
    ClassMethod("rgw", "bi_log_list", READS),
    ClassMethod("rgw", "bi_log_trim", READS_AND_WRITES),
    ClassMethod("rgw", "dir_suggest_changes", READS_AND_WRITES),
    ClassMethod("rgw", "bi_log_resync", READS_AND_WRITES),
];

fn rgw_one_methods() -> &'static [ClassMethod] {
    &RGW_ONE
}

static RGW_TWO: [ClassMethod; 24] = [
    ClassMethod("rgw", "bi_log_stop", READS_AND_WRITES),
    ClassMethod("rgw", "user_usage_log_add", READS_AND_WRITES),
    ClassMethod("rgw", "user_usage_log_read", READS),
    ClassMethod("rgw", "user_usage_log_trim", READS_AND_WRITES),
    ClassMethod("rgw", "usage_log_clear", WRITES),
    ClassMethod("rgw", "gc_set_entry", READS_AND_WRITES),
    ClassMethod("rgw", "gc_defer_entry", READS_AND_WRITES),
    ClassMethod("rgw", "gc_list", READS),
    ClassMethod("rgw", "gc_remove", READS_AND_WRITES),
    ClassMethod("rgw", "lc_get_entry", READS),
    ClassMethod("rgw", "lc_set_entry", READS_AND_WRITES),
    ClassMethod("rgw", "lc_rm_entry", READS_AND_WRITES),
    ClassMethod("rgw", "lc_get_next_entry", READS),
    ClassMethod("rgw", "lc_put_head", READS_AND_WRITES),
    ClassMethod("rgw", "lc_get_head", READS),
    ClassMethod("rgw", "lc_list_entries", READS),
    ClassMethod("rgw", "reshard_add", READS_AND_WRITES),
    ClassMethod("rgw", "reshard_list", READS),
    ClassMethod("rgw", "reshard_get", READS),
    ClassMethod("rgw", "reshard_remove", READS_AND_WRITES),
    ClassMethod("rgw", "set_bucket_resharding", READS_AND_WRITES),
    ClassMethod("rgw", "clear_bucket_resharding", READS_AND_WRITES),
    ClassMethod("rgw", "guard_bucket_resharding", READS),
    ClassMethod("rgw", "get_bucket_resharding", READS),
];

fn rgw_two_methods() -> &'static [ClassMethod] {
    &RGW_TWO
}

static RGW_GC: [ClassMethod; 5] = [
    ClassMethod("rgw_gc", "rgw_gc_queue_init", READS_AND_WRITES),
    ClassMethod("rgw_gc", "rgw_gc_queue_enqueue", READS_AND_WRITES),
    ClassMethod("rgw_gc", "rgw_gc_queue_list_entries", READS),
    ClassMethod("rgw_gc", "rgw_gc_queue_remove_entries", READS_AND_WRITES),
    ClassMethod("rgw_gc", "rgw_gc_queue_update_entry", READS_AND_WRITES),
];

fn rgw_gc_methods() -> &'static [ClassMethod] {
    &RGW_GC
}

static SDK: [ClassMethod; 2] = [
    ClassMethod("sdk", "test_coverage_write", READS_AND_WRITES),
    ClassMethod("sdk", "test_coverage_replay", READS_AND_WRITES),
];

fn sdk_methods() -> &'static [ClassMethod] {
    &SDK
}

static TIMEINDEX: [ClassMethod; 3] = [
    ClassMethod("timeindex", "add", READS_AND_WRITES),
    ClassMethod("timeindex", "list", READS),
    ClassMethod("timeindex", "trim", READS_AND_WRITES),
];

fn timeindex_methods() -> &'static [ClassMethod] {
    &TIMEINDEX
}

static USER: [ClassMethod; 7] = [
    ClassMethod("user", "set_buckets_info", READS_AND_WRITES),
    ClassMethod("user", "complete_stats_sync", READS_AND_WRITES),
    ClassMethod("user", "remove_bucket", READS_AND_WRITES),
    ClassMethod("user", "list_buckets", READS),
    ClassMethod("user", "get_header", READS),
    ClassMethod("user", "reset_user_stats", READS_AND_WRITES),
    ClassMethod("user", "reset_user_stats2", READS_AND_WRITES),
];

fn user_methods() -> &'static [ClassMethod] {
    &USER
}

static VERSION: [ClassMethod; 5] = [
    ClassMethod("version", "set", READS_AND_WRITES),
    ClassMethod("version", "inc", READS_AND_WRITES),
    ClassMethod("version", "inc_conds", READS_AND_WRITES),
    ClassMethod("version", "read", READS),
    ClassMethod("version", "check_conds", READS),
];

fn version_methods() -> &'static [ClassMethod] {
    &VERSION
}
