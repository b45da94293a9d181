use group_fields::Bytes;

/// What there is under a path.
#[derive(Debug, Drop)]
pub struct StoredFile {
    /// What a read gives.
    pub bytes: Bytes,
    /// Whether the bytes as they are would survive a loss of power.
    pub is_synced: bool,
    /// Whether the name would.
    pub is_named: bool,
    /// Whether it is a plain file, and no folder, pipe or the like.
    pub is_plain: bool,
    /// Whether it was made so that only its owner may read and write it.
    pub is_private: bool,
}

/// What a listing of a folder tells of one name.
#[derive(Clone, Copy, Debug, PartialEq, Eq)]
pub struct FolderEntry {
    /// Whether it is a plain file, and no folder, pipe or the like.
    pub is_plain: bool,
    /// How many bytes it has.
    pub length: u64,
}
