// Reads an image from standard input, and prints what it holds.
#![tactic(auto)]

use std::io::Read;
use storage::survey::survey_image;

fn main(rt: HostRuntime) -> anyhow::Result<()> {
    let heap = rt.alloc();
    let mut image = Vec::new(heap);
    rt.stdin().read_to_end(&mut image)?;
    let mut core = vec![in heap; 0u32; image.len() / 3]?;
    let mut again = vec![in heap; 0u8; image.len()]?;
    match survey_image(&image, &mut core, &mut again) {
        Ok(survey) => println!(rt; "{survey}")?,
        // A refusal is an answer of this program too, and no failure of it: `?` would print it elsewhere, and end with status 1.
        Err(refusal) => {
            println!(rt; "{refusal}")?;
            return Ok(());
        }
    }
    // The contract of `survey_image` says so already; here it is seen.
    let file = if again == image {
        "the same file"
    } else {
        "another file"
    };
    println!(rt; "encoded again: {file}")?;
    Ok(())
}
