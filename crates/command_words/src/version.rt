//! What `clockbed --version` says. `tools/version.py` writes the commit, and checks all of it.

/// The version, the commit of the sources and the toolchain. "after" says that the sources have changed since.
pub(crate) const VERSION: &str = "1.1.0
sources after commit 05848e5f2b60948773f254a5fc5f924dba77b197
toolchain rattle-kit-13 logic dac8208d650f15bf";
