use std::alloc::{AllocError, Global};

/// A guest that writes a byte in each of its twelve pages, after thirteen adds, in rings of 8.
pub const IN_EIGHT: &str = "dirtyguest 1
ring 8
";

/// The same, in rings of 16.
pub const IN_SIXTEEN: &str = "dirtyguest 1
ring 16
";

/// What stands after the size of the rings.
pub const TWELVE_PAGES: &str = "reserve 2
buffer 1
pace 13
threshold 0
rounds 4
quota 0
slot 0 0 12
vcpu
rep 13
a 0
end
w 0 01
w 4096 01
w 8192 01
w 12288 01
w 16384 01
w 20480 01
w 24576 01
w 28672 01
w 32768 01
w 36864 01
w 40960 01
w 45056 01
halt
";

/// A guest that writes its only page three times.
pub const ONE_PAGE: &str = "reserve 2
buffer 0
pace 1
threshold 0
rounds 3
quota 0
slot 0 0 1
vcpu
a 0
w 0 01
w 0 02
w 0 03
halt
";

/// How many pages the guest of the threads has.
pub const PAGES: u64 = 200;

/// What stands before the writes of a guest with so many pages.
const MANY_PAGES: &str = "reserve 2
buffer 1
pace 1
threshold 0
rounds 4
quota 0
slot 0 0 200
vcpu
a 0
";

/// The text of a guest, after the size of its rings.
pub fn text_of(alloc: Global, size: &str, rest: &str) -> Result<String, AllocError> {
    let mut text = String::new(alloc);
    text.push_str(size)?;
    text.push_str(rest)?;
    Ok(text)
}

/// A guest that writes each of its many pages once, in rings of 8.
pub fn many_pages(alloc: Global) -> Result<String, AllocError> {
    let mut text = text_of(alloc, IN_EIGHT, MANY_PAGES)?;
    for page in 0..PAGES {
        let write = format!(in alloc; "w {} 01\n", page * 4096)?;
        text.push_str(write.as_str())?;
    }
    text.push_str("halt\n")?;
    Ok(text)
}
