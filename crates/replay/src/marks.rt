// Marks, by which it shows what a call left as it was.
const MARK: u8 = 0xEE;

pub fn mark_bytes(buffer: &mut [u8]) {
    buffer.fill(MARK);
}

pub fn is_marked(buffer: &[u8]) -> bool {
    buffer.iter().all(|byte| *byte == MARK)
}
